//! Breaches of the lending rule, and which of several is answered.
ghost use Rattle.std.specs.Prelude.{◌≡◌, true, false};
ghost use Rattle.cm_lend.specs.Breach as breaches;
ghost use Rattle.cm_lend.specs.Breach.{Picks, IsBest, IsAgain, IsOnceMore};

use cm_syntax::Mark;

/// A breach of the lending rule.
#[derive(Clone, Copy, Debug, PartialEq, Eq)]
pub enum Breach {
    /// A mention that is lent.
    Lent {
        /// Its offset.
        at: u32,
        /// The offset of the word `spawn` of a spawn that lends to it.
        spawn: u32,
    },
    /// A variable that a call passes, or a spawn lends, a second time.
    Same {
        /// The offset of the second mention.
        at: u32,
    },
}

/// How far a spawn is from being named at this offset: those before it come first, the nearest first.
fn distance(at: u32, spawn: u32) -> u64
    ensures { result ≡ breaches.distance at spawn }
{
    if spawn < at {
        (at - spawn) as u64
    } else {
        spawn as u64 + 1
    }
}

/// Whether the one is answered rather than the other.
fn is_rather(one: Breach, other: Breach) -> bool
    ensures rather { result ≡ true → breaches.Rather one other }
    ensures other { result ≡ false → breaches.Rather other one }
{
    match (one, other) {
        (
            Breach::Lent { at, spawn },
            Breach::Lent {
                at: offset,
                spawn: second,
            },
        ) => { at < offset || at == offset && distance(at, spawn) <= distance(offset, second) }
        (Breach::Lent { at, .. }, Breach::Same { at: offset }) => at <= offset,
        (Breach::Same { at }, Breach::Lent { at: offset, .. }) => at < offset,
        (Breach::Same { at }, Breach::Same { at: offset }) => at <= offset,
    }
}

/// The one of both that is answered.
pub(crate) fn better(x: Option<Breach>, y: Option<Breach>) -> Option<Breach>
    ensures { Picks x y result }
{
    match (x, y) {
        (None, _) => y,
        (_, None) => x,
        (Some(one), Some(other)) => { if is_rather(one, other) { x } else { y } }
    }
}

/// What is passed once more of a variable.
fn once_more(variable: u32, more: &[Mark<u32>]) -> Option<Breach>
    ensures { IsBest (IsOnceMore variable more.now) result }
{
    let mut best = None;
    for mark in more {
        if mark.name == variable {
            best = better(best, Some(Breach::Same { at: mark.at }));
        }
    }
    best
}

/// What stands again among what one call passes.
pub(crate) fn again(passed: &[Mark<u32>]) -> Option<Breach>
    ensures { IsBest (IsAgain passed.now) result }
{
    match passed {
        [] => None,
        [first, more @ ..] => better(once_more(first.name, more), again(more)),
    }
}
