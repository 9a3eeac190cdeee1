//! The schedule that a generator draws.
ghost use Rattle.std.specs.Prelude.{◌≡◌};
ghost use Rattle.cm_replay.specs.Pair.{drawn, IsWorkerCount};

use crate::schedule::Schedule;
use cm_big::Generator;

/// Two draws for each turn: the worker, and then the victim.
#[derive(Clone, Copy, Debug, Drop)]
pub(crate) struct Drawn {
    workers: u32,
    generator: Generator,
    ghost count: { IsWorkerCount workers },
}

impl Drawn {
    /// The schedule of the draws from a seed on.
    pub(crate) fn new(seed: u32, workers: u32) -> Drawn
        requires { IsWorkerCount workers }
        ensures workers { result.workers ≡ workers }
        ensures generator { result.generator ≡ seed }
    {
        Drawn {
            workers,
            generator: Generator::new(seed),
        }
    }
}

impl Schedule for Drawn {
    ghost workers = { λ draws. draws.workers };

    ghost pair = { λ draws turn. drawn draws.generator draws.workers turn };

    fn next(&mut self) -> (u32, u32) {
        let worker = self.generator.draw() % self.workers;
        let victim = self.generator.draw() % self.workers;
        (worker, victim)
    }
}
