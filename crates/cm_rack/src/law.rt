//! What the rule says of tickets.
ghost use Rattle.cm_rack.specs.Rule.{OneTicket, IsThere, IsNamed, OneHolder, IsHeld};

use crate::racked::Racked;

/// At every moment no two seats name one place, a named place is filled with a task of the name's tag, a filled place is named, and a word is 1 exactly while a seat holds its slot.
pub fn one_ticket_each<T: Racked>()
    ensures one { OneTicket T.tag }
    ensures there { IsThere T.tag }
    ensures named { IsNamed T.tag }
    ensures holder { OneHolder T.tag }
    ensures held { IsHeld T.tag }
{}
