//! The schedule that is written down.
ghost use Rattle.std.specs.Prelude.{◌≡◌, ℕ, ◌+◌, slice_index_or};
ghost use Rattle.cm_replay.specs.Pair.{round_robin, listed, AreBelow, IsWorkerCount};

use crate::round_robin::RoundRobin;
use crate::schedule::Schedule;
use cm_text::List;

/// The schedule that hands out listed pairs of worker and victim, and then goes round robin, with its turns counted on.
#[derive(Debug, Drop)]
pub struct Listed {
    pairs: List<(u32, u32)>,
    at: usize,
    rounds: RoundRobin,
    ghost below: { AreBelow rounds.workers pairs },
}

impl Listed {
    /// The schedule of these pairs, whose numbers are below the number of workers, which is 1 to 16.
    pub fn of(pairs: List<(u32, u32)>, workers: u32) -> Listed
        requires workers { IsWorkerCount workers }
        requires pairs { AreBelow workers pairs }
        ensures workers { ⟦<Listed as Schedule>⟧.workers result ≡ workers }
        ensures pairs { (turn : ℕ) → ⟦<Listed as Schedule>⟧.pair result turn ≡ listed pairs workers turn }
    {
        Listed {
            pairs,
            at: 0,
            rounds: RoundRobin::new(workers),
        }
    }
}

impl Schedule for Listed {
    ghost workers = { λ schedule. schedule.rounds.workers };

    ghost pair = { λ schedule turn. slice_index_or schedule.pairs (schedule.at + turn)
        (round_robin schedule.rounds.workers (schedule.rounds.turn + turn)) };

    fn next(&mut self) -> (u32, u32) {
        let round = self.rounds.next();
        match self.pairs.items().get(self.at) {
            Some(pair) => {
                self.at += 1;
                *pair
            }
            None => round,
        }
    }
}
