//! Each child answers a list with a fact in its type, and the surplus is a list too.
ghost use Rattle.std.specs.Prelude.{◌≡◌, IfSome, Some, vec_len};
ghost use mathlib.Core.Option.{some};
ghost use lib.ListN.{get_elem?};
ghost use Rattle.cm_board.specs.Seen.{asks_of};

use crate::{Arrived, Job, Owner, arrive, collect, deposit, fetch, park, post, spawn, start};
use std::alloc::Global;
use std::snapshot::Snapshot;
use std::test::Fail;

// A list that is as long as it says.
#[derive(Drop)]
struct Measured {
    items: Vec<u32>,
    len: usize,
    ghost told: { vec_len items ≡ len },
}

struct Lists;

impl Job for Lists {
    type Home = Snapshot<Vec<u32>>;

    type Ask = Snapshot<Vec<u32>>;

    type Answer = Measured;

    type Task = u32;

    type Surplus = Measured;

    ghost answers = { λ ask answer. answer.items.items ≡ ask.value.items };

    ghost belongs = { λ home pages asks task. task ≡ pages };

    ghost lies_in = { λ home pages surplus. surplus.len ≡ pages };
}

// The answer at the place 0, which answers the ask there.
fn first_answer(owner: &mut Owner<Lists>, ask: &Vec<u32>) -> Option<Measured>
    requires { (a : _) × (get_elem? (asks_of owner.old) 0 ≡ some (Some a)) × (a.value.items ≡ ask.now.items) }
    ensures { IfSome result (λ b. b.items.items ≡ ask.now.items) }
{
    let _ask = ask;
    collect(owner, 0)
}

// The owner posts surplus, which the child that left the scope fetches, and collects the child's list when it has parked: the list that it asked for.
fn pair(
    alloc: Global,
    ask: &Vec<u32>,
    answer: Measured,
    surplus: Measured,
) -> Option<(Measured, Measured)>
    requires answer { answer.items.items ≡ ask.now.items }
    requires surplus { surplus.len ≡ 1 }
    ensures answer { IfSome result (λ r. (r.0.items.items ≡ ask.now.items) × (vec_len r.0.items ≡ r.0.len)) }
    ensures surplus { IfSome result (λ r. vec_len r.1.items ≡ 1) }
{
    let Ok(mut owner) = start::<Lists>(alloc, 1, Snapshot::of(ask)) else {
        return None;
    };
    let Ok(mut child) = spawn(&mut owner, Snapshot::of(ask)) else {
        return None;
    };
    let Ok(()) = post(&mut owner, 3, surplus) else {
        return None;
    };
    deposit(&mut child, answer);
    let Arrived::Earlier(mut leave) = arrive(child) else {
        return None;
    };
    let Some(fetched) = fetch(&mut leave, 3) else {
        return None;
    };
    let Arrived::Last(mut owner, _task) = park(owner, 1) else {
        return None;
    };
    match first_answer(&mut owner, ask) {
        Some(answer) => Some((answer, fetched)),
        None => None,
    }
}

#[test]
fn a_list_is_collected(rt: HostRuntime) -> Result<(), Fail> {
    let mut items = Vec::with_capacity(rt.alloc(), 1)?;
    items.push(3)?;
    let mut ask = Vec::with_capacity(rt.alloc(), 1)?;
    ask.push(3)?;
    let mut more = Vec::with_capacity(rt.alloc(), 1)?;
    more.push(4)?;
    let answer = Measured { items, len: 1 };
    let surplus = Measured {
        items: more,
        len: 1,
    };
    let sums = match pair(rt.alloc(), &ask, answer, surplus) {
        Some((answer, fetched)) => Some((answer.len, fetched.len)),
        None => None,
    };
    assert_eq!(rt; sums, Some((1, 1)));
    Ok(())
}
