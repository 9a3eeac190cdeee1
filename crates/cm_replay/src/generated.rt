//! The schedule that is made from a seed.
ghost use Rattle.std.specs.Prelude.{◌≡◌, ℕ};
ghost use Rattle.cm_replay.specs.Pair.{generated, IsWorkerCount};
ghost use Rattle.cm_replay.specs.Order.{order_workers, order_pair};

use crate::drawn::Drawn;
use crate::round_robin::RoundRobin;
use crate::schedule::Schedule;

#[derive(Clone, Copy, Debug, Drop)]
enum Order {
    RoundRobin(RoundRobin),
    Drawn(Drawn),
}

/// The schedule of a seed: round robin for 0, and else what the generator draws from the seed on.
#[derive(Clone, Copy, Debug, Drop)]
pub struct Generated {
    order: Order,
}

impl Generated {
    /// The schedule of a seed for 1 to 16 workers.
    pub fn of(seed: u32, workers: u32) -> Generated
        requires { IsWorkerCount workers }
        ensures workers { ⟦<Generated as Schedule>⟧.workers result ≡ workers }
        ensures pairs { (turn : ℕ) → ⟦<Generated as Schedule>⟧.pair result turn ≡ generated seed workers turn }
    {
        let order = if seed == 0 {
            Order::RoundRobin(RoundRobin::new(workers))
        } else {
            Order::Drawn(Drawn::new(seed, workers))
        };
        Generated { order }
    }
}

impl Schedule for Generated {
    ghost workers = { λ schedule. order_workers schedule.order };

    ghost pair = { λ schedule. order_pair schedule.order };

    fn next(&mut self) -> (u32, u32) {
        match &mut self.order {
            Order::RoundRobin(rounds) => rounds.next(),
            Order::Drawn(draws) => draws.next(),
        }
    }
}
