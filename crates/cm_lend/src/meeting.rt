//! Where the loans that leave one piece of text meet the mentions of the next.
ghost use Rattle.std.specs.Prelude.{◌≡◌, ℕ, IfOk, Some, get_or, true, false};
ghost use Rattle.cm_lend.specs.Breach.{AtLeast};
ghost use Rattle.cm_lend.specs.Summary.{Meets, MeetsAt, IsBetter, IsMarked, AreMarked};
ghost use Rattle.cm_lend.specs.declared.breach.Breach.TheVariants as breaches;

use crate::breach::{Breach, better};
use cm_text::Memory;
use std::alloc::Global;

/// A variable that a spawn lends.
#[derive(Clone, Copy, Debug, PartialEq, Eq)]
pub struct Loan {
    /// The offset of the word `spawn`.
    pub spawn: u32,
    /// The slot of the variable.
    pub variable: u32,
}

/// A mention of a variable.
#[derive(Clone, Copy, Debug, PartialEq, Eq)]
pub struct Mention {
    /// The slot of the variable.
    pub variable: u32,
    /// The offset of the mention.
    pub at: u32,
}

/// Up to so many loans or mentions are compared with all others; where there are more of both, the loans' variables
/// are marked first.
const FEW: usize = 8;

/// The better of a breach and those at this mention.
fn meet_each(before: Option<Breach>, leaving: &[Loan], mention: Mention) -> Option<Breach>
    ensures { IsBetter (MeetsAt leaving.now mention) before result }
{
    let mut best = before;
    for loan in leaving {
        if loan.variable == mention.variable {
            let found = Breach::Lent {
                at: mention.at,
                spawn: loan.spawn,
            };
            best = better(best, Some(found));
        }
    }
    best
}

/// Whether a lent mention at this offset could be answered rather than this breach.
fn is_open(before: Option<Breach>, at: u32) -> bool
    ensures { result ≡ false → (spawn : ℕ) → AtLeast before (Some (breaches.Lent at spawn)) }
{
    match before {
        None => true,
        Some(Breach::Lent { at: found, .. }) => at <= found,
        Some(Breach::Same { at: found }) => at <= found,
    }
}

/// Whether the variable is marked, or beyond the marks.
fn is_marked(marks: &[bool], variable: u32) -> bool
    ensures { result ≡ get_or marks.now variable true }
{
    match marks.get(variable as usize) {
        None => true,
        Some(mark) => *mark,
    }
}

/// The same as `meet_each`, where the variables of the loans are marked. It looks through the loans only where that
/// could change the answer.
fn meet_one(
    before: Option<Breach>,
    leaving: &[Loan],
    marks: &[bool],
    mention: Mention,
) -> Option<Breach>
    requires { AreMarked leaving.now marks.now }
    ensures { IsBetter (MeetsAt leaving.now mention) before result }
{
    if !is_open(before, mention.at) {
        return before;
    }
    if is_marked(marks, mention.variable) {
        meet_each(before, leaving, mention)
    } else {
        before
    }
}

/// The better of a breach and those where the loans meet the mentions.
fn meet_all(
    before: Option<Breach>,
    leaving: &[Loan],
    marks: &[bool],
    entering: &[Mention],
) -> Option<Breach>
    requires { AreMarked leaving.now marks.now }
    ensures { IsBetter (Meets leaving.now entering.now) before result }
{
    let mut best = before;
    for mention in entering {
        best = meet_one(best, leaving, marks, *mention);
    }
    best
}

/// Marks a variable, if it isn't beyond the marks.
fn mark(marks: &mut [bool], variable: u32)
    ensures kept { (other : ℕ) → IsMarked marks.old other → IsMarked marks.new other }
    ensures marked { IsMarked marks.new variable }
{
    let index = variable as usize;
    if index < marks.len() {
        marks[index] = true;
    }
}

/// Marks the variables of all loans.
fn mark_all(marks: &mut [bool], loans: &[Loan])
    ensures { AreMarked loans.now marks.new }
{
    for loan in loans {
        mark(marks, loan.variable);
    }
}

/// How many marks the variables of the loans and the mentions want. It bears on the time alone: a variable beyond the
/// marks counts as marked.
fn slot_count(loans: &[Loan], mentions: &[Mention]) -> usize {
    let mut most = 0;
    for loan in loans {
        most = loan.variable.max(most);
    }
    for mention in mentions {
        most = mention.variable.max(most);
    }
    most as usize + 1
}

/// The marks of the loans' variables. None are made where there are few loans or few mentions: then the loans are
/// looked through for each mention.
fn marks_of(alloc: Global, loans: &[Loan], mentions: &[Mention]) -> Result<Vec<bool>, Memory>
    ensures { IfOk result (λ marks. AreMarked loans.now marks.items) }
{
    if loans.len() <= FEW || mentions.len() <= FEW {
        return Ok(Vec::new(alloc));
    }
    let mut marks = vec![in alloc; false; slot_count(loans, mentions)]?;
    mark_all(&mut marks, loans);
    Ok(marks)
}

/// The better of a breach and those where the loans meet the mentions. The time is that of the loans and mentions
/// together, or where there are few of the one that of each with each.
pub(crate) fn meet(
    alloc: Global,
    before: Option<Breach>,
    leaving: &[Loan],
    entering: &[Mention],
) -> Result<Option<Breach>, Memory>
    ensures { IfOk result (IsBetter (Meets leaving.now entering.now) before) }
{
    let marks = marks_of(alloc, leaving, entering)?;
    let best = meet_all(before, leaving, marks.as_slice(), entering);
    Ok(best)
}
