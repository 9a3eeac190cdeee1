//! What a schedule is.
ghost use Rattle.std.specs.Prelude.{◌≡◌, ℕ, ◌+◌, ◌<◌};

/// Which worker takes each turn, and which victim it steals from where it steals, with no end.
pub trait Schedule {
    /// How many workers there are.
    ghost workers: { Self → ℕ };

    /// The worker and the victim of each turn that is to come, counted from 0.
    ghost pair: { Self → ℕ → ℕ × ℕ };

    /// The worker and the victim of the next turn, both below the number of workers.
    fn next(&mut self) -> (u32, u32)
        ensures pair { result ≡ pair self.old 0 }
        ensures later { (turn : ℕ) → pair self.new turn ≡ pair self.old (turn + 1) }
        ensures workers { workers self.new ≡ workers self.old }
        ensures worker { result.0 < workers self.old }
        ensures victim { result.1 < workers self.old };
}
