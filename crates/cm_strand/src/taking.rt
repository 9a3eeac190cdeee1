//! Joins: the ticks of a scope's children are taken.
ghost use Rattle.std.specs.Prelude.{◌≡◌, ℕ, ◌≤◌, ◌<◌, Some, MatchOption, map, drop, length, vec_len};
ghost use Rattle.cm_strand.specs.Turn.{AllFilledDone, joined_log, unpaid};
ghost use Rattle.cm_strand.specs.Seen.{IsLog, LogOf};
ghost use Rattle.cm_strand.specs.Due.{all_due, hole_due, joined_holes, taken, taken_hole};

use crate::log::{Filling, Hole, Log};

impl Log {
    /// The ticks of the holes from this one on that weren't taken, where a `Done` child filled each and they are at most those
    /// that are left.
    pub(crate) fn due(&self, first: u32, left: u32) -> Option<u32>
        requires { first ≤ vec_len self.now.holes }
        ensures { LogOf self.now (λ log. MatchOption result (AllFilledDone first log → left < unpaid first log)
            (λ due. AllFilledDone first log × (unpaid first log ≡ due) × (due ≤ left))) }
    {
        due_from(self.holes.as_slice(), first as usize, left)
    }

    /// The ticks of the holes from this one on are taken, which are so many.
    pub(crate) fn take_due(&mut self, first: u32, due: u32)
        requires { first ≤ vec_len self.old.holes }
        ensures { LogOf self.old (λ log. unpaid first log ≡ due → IsLog self.new (joined_log first log)) }
    {
        take_from(&mut self.holes, first as usize);
        self.paid = self.paid.saturating_add(due);
    }
}

/// The same of the holes from one on.
fn due_from(holes: &[Hole], first: usize, left: u32) -> Option<u32>
    requires { first ≤ length holes.now }
    ensures { MatchOption result ((n : ℕ) → all_due (drop first holes.now) ≡ Some n → left < n)
        (λ due. (all_due (drop first holes.now) ≡ Some due) × (due ≤ left)) }
{
    due(&holes[first..], left)
}

/// The ticks of holes that weren't taken, where a `Done` child filled each and they are at most those that are left.
fn due(holes: &[Hole], left: u32) -> Option<u32>
    ensures { MatchOption result ((n : ℕ) → all_due holes.now ≡ Some n → left < n) (λ due. (all_due holes.now ≡ Some due) × (due ≤ left)) }
{
    let mut due: u32 = 0;
    for hole in holes {
        let more = due_of(&hole.filling)?;
        due = due.checked_add(more)?;
    }
    if due <= left { Some(due) } else { None }
}

/// The ticks of one hole that weren't taken, and `None` where no `Done` child filled it.
fn due_of(filling: &Filling) -> Option<u32>
    ensures { result ≡ hole_due filling.now }
{
    match filling {
        Filling::Done { ticks, paid } => { if *paid { Some(0) } else { Some(*ticks) } }
        _ => None,
    }
}

/// The ticks of these holes are taken.
fn take(holes: &mut [Hole])
    ensures { holes.new ≡ map taken_hole holes.old }
{
    for hole in holes.iter_mut() {
        hole.filling = with_taken(hole.filling);
    }
}

/// The ticks of the holes from this one on are taken.
fn take_from(holes: &mut Vec<Hole>, first: usize)
    requires { first ≤ vec_len holes.old }
    ensures { holes.new.items ≡ joined_holes first holes.old.items }
{
    take(&mut holes.as_mut_slice()[first..]);
}

/// The filling once its ticks are taken.
fn with_taken(filling: Filling) -> Filling
    ensures { result ≡ taken filling }
{
    match filling {
        Filling::Done { ticks, .. } => Filling::Done { ticks, paid: true },
        other => other,
    }
}
