//! The schedule that goes round all workers.
ghost use Rattle.std.specs.Prelude.{◌≡◌, ◌+◌, ◌*◌, ◌<◌};
ghost use Rattle.cm_replay.specs.Pair.{round_robin, IsWorkerCount};

use crate::schedule::Schedule;

/// Each worker in turn, and for each round of the workers the next victim.
#[derive(Clone, Copy, Debug, Drop)]
pub(crate) struct RoundRobin {
    workers: u32,
    // Counted modulo the square of the number of workers: the pairs of so many turns come again and again.
    turn: u32,
    ghost count: { IsWorkerCount workers },
    ghost within: { turn < workers * workers },
}

impl RoundRobin {
    /// The schedule from its first turn on.
    pub(crate) fn new(workers: u32) -> RoundRobin
        requires { IsWorkerCount workers }
        ensures workers { result.workers ≡ workers }
        ensures turn { result.turn ≡ 0 }
    {
        RoundRobin { workers, turn: 0 }
    }
}

impl Schedule for RoundRobin {
    ghost workers = { λ rounds. rounds.workers };

    ghost pair = { λ rounds turn. round_robin rounds.workers (rounds.turn + turn) };

    fn next(&mut self) -> (u32, u32) {
        let worker = self.turn % self.workers;
        let victim = self.turn / self.workers % self.workers;
        self.turn = (self.turn + 1) % (self.workers * self.workers);
        (worker, victim)
    }
}
