//! The generator of draws.
ghost use Rattle.std.specs.Prelude.{◌≡◌, ◌/◌};
ghost use Rattle.cm_big.specs.Draw.{next_value};

use std::marker::Model;

/// A linear congruential generator over 32 bits, of which each draw takes the upper 16. Contracts see its value.
#[derive(Clone, Copy, Debug, Drop)]
pub struct Generator {
    value: u32,
}

impl Model for Generator {
    ghost use Rattle.std.specs.Prelude.{ℕ};

    ghost Value = { ℕ };

    ghost view = { λ generator. generator.value };

    ghost inverse = { λ value. record { value = value } };
}

impl Generator {
    /// A generator that starts at this value.
    pub fn new(seed: u32) -> Generator
        ensures { result ≡ seed }
    {
        Generator { value: seed }
    }

    /// The next draw, from 0 to 65,535.
    pub fn draw(&mut self) -> u32
        ensures value { self.new ≡ next_value self.old }
        ensures draw { result ≡ self.new / 65536 }
    {
        self.value = self
            .value
            .wrapping_mul(1_664_525)
            .wrapping_add(1_013_904_223);
        self.value / 65_536
    }
}
