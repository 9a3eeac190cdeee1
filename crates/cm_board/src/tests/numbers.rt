//! Three children answer the successors of their numbers, each on a thread of its own, while the owner posts and parks, and whoever has left fetches.
ghost use Rattle.std.specs.Prelude.{◌≡◌, ◌+◌, ◌<◌, true, false, IfSome};
ghost use Rattle.cm_board.specs.Seen.{board_of, child_board_of, pages_of};

use crate::{
    Arrived, Child, Job, Leave, Owner, arrive, back, collect, deposit, fetch, park, post, spawn,
    start,
};
use std::alloc::Global;
use std::test::Fail;
use std::thread::{Threads, join};

const ROUNDS: u32 = 10_000;

// As many surplus slots as seats that leave.
const SLOTS: u32 = 3;

struct Successor;

impl Job for Successor {
    type Home = u32;

    type Ask = u32;

    type Answer = u32;

    type Task = u64;

    type Surplus = u32;

    ghost answers = { λ n m. m ≡ n + 1 };

    ghost belongs = { λ home pages asks task. task ≡ pages };

    ghost lies_in = { λ home pages surplus. surplus ≡ pages };
}

// What a seat has seen: how often it was the last, the sum of the answers that it collected, and what it fetched.
#[derive(Clone, Copy, Drop)]
struct Seen {
    lasts: u32,
    sum: u32,
    fetched: u32,
}

impl Seen {
    // What two seats have seen.
    fn and(self, other: Seen) -> Seen {
        Seen {
            lasts: self.lasts.wrapping_add(other.lasts),
            sum: self.sum.wrapping_add(other.sum),
            fetched: self.fetched.wrapping_add(other.fetched),
        }
    }
}

// What a seat has seen, and its leave where it was not the last.
#[derive(Drop)]
struct Gone {
    seen: Seen,
    leave: Option<Leave<Successor>>,
}

impl Gone {
    // What the seat has seen once its leave, where it is not spent yet, has fetched.
    fn finish(self) -> Seen {
        let Gone { seen, leave } = self;
        let Some(mut leave) = leave else {
            return seen;
        };
        seen.and(Seen {
            lasts: 0,
            sum: 0,
            fetched: fetched(&mut leave),
        })
    }
}

// The surplus that a leave finds in one of the slots, or 0.
fn fetched(leave: &mut Leave<Successor>) -> u32 {
    for slot in 0..SLOTS {
        if !leave.is_spent {
            if let Some(pages) = fetch(leave, slot) {
                return pages;
            }
        }
    }
    0
}

// Of the last to arrive the answers, of an earlier one the surplus that it finds.
fn gather(arrived: Arrived<Successor>) -> Gone {
    match arrived {
        Arrived::Earlier(mut leave) => Gone {
            seen: Seen {
                lasts: 0,
                sum: 0,
                fetched: fetched(&mut leave),
            },
            leave: Some(leave),
        },
        Arrived::Last(mut owner, _) => {
            let mut sum = 0u32;
            for place in 0..16 {
                if owner.used(place) {
                    if let Some(answer) = collect(&mut owner, place) {
                        sum = sum.wrapping_add(answer);
                    }
                }
            }
            Gone {
                seen: Seen {
                    lasts: 1,
                    sum,
                    fetched: 0,
                },
                leave: None,
            }
        }
    }
}

// A child deposits and arrives.
fn answer(mut child: Child<Successor>) -> Gone
    requires { (child.is_full ≡ false) × (child.ask < 1000) }
{
    let value = child.ask + 1;
    deposit(&mut child, value);
    gather(arrive(child))
}

// The owner posts into each of the slots, and parks.
fn post_and_park(mut owner: Owner<Successor>) -> Gone
    requires { (owner.is_open ≡ true) × (pages_of owner ≡ 3) }
{
    let _ = post(&mut owner, 0, 3);
    let _ = post(&mut owner, 1, 3);
    let _ = post(&mut owner, 2, 3);
    gather(park(owner, 3))
}

// Two children, each on a thread of its own.
fn two<R: Threads>(rt: &R, first: Child<Successor>, second: Child<Successor>) -> (Gone, Gone)
    requires { (first.is_full ≡ false) × (first.ask < 1000) × (second.is_full ≡ false) × (second.ask < 1000) }
{
    join(
        rt,
        move || -> Gone
            requires { (first.is_full ≡ false) × (first.ask < 1000) }
        { answer(first) },
        move || -> Gone
            requires { (second.is_full ≡ false) × (second.ask < 1000) }
        { answer(second) },
    )
}

// A child and the owner, which posts and parks, each on a thread of its own.
fn third_and_owner<R: Threads>(
    rt: &R,
    third: Child<Successor>,
    owner: Owner<Successor>,
) -> (Gone, Gone)
    requires child { (third.is_full ≡ false) × (third.ask < 1000) }
    requires owner { (owner.is_open ≡ true) × (pages_of owner ≡ 3) }
{
    join(
        rt,
        move || -> Gone
            requires { (third.is_full ≡ false) × (third.ask < 1000) }
        { answer(third) },
        move || -> Gone
            requires { (owner.is_open ≡ true) × (pages_of owner ≡ 3) }
        { post_and_park(owner) },
    )
}

// A child with this number, where a place is free.
fn child(owner: &mut Owner<Successor>, number: u32) -> Option<Child<Successor>>
    requires owner { owner.old.is_open ≡ true }
    requires number { number < 1000 }
    ensures owner { (owner.new.is_open ≡ true) × (board_of owner.new ≡ board_of owner.old) }
    ensures child { IfSome result (λ c. (c.is_full ≡ false) × (c.ask < 1000) × (child_board_of c ≡ board_of owner.old)) }
{
    if owner.free() >= 16 {
        return None;
    }
    match spawn(owner, number) {
        Ok(child) => Some(child),
        Err(_) => None,
    }
}

// One scope, from its start to the last answer and the last fetch: what its four seats have seen, added up.
fn round<R: Threads + Sync>(rt: &R, alloc: Global) -> Option<Seen> {
    let Ok(mut owner) = start::<Successor>(alloc, 3, 7) else {
        return None;
    };
    let first = child(&mut owner, 10)?;
    let second = child(&mut owner, 20)?;
    let third = child(&mut owner, 30)?;
    let ((one, other), (last, own)) = join(
        rt,
        move || -> (Gone, Gone)
            requires { (first.is_full ≡ false) × (first.ask < 1000) × (second.is_full ≡ false) × (second.ask < 1000) }
        { two(rt, first, second) },
        move || -> (Gone, Gone)
            requires { (third.is_full ≡ false) × (third.ask < 1000) × (owner.is_open ≡ true) × (pages_of owner ≡ 3) }
        { third_and_owner(rt, third, owner) },
    );
    let children = one.finish().and(other.finish()).and(last.finish());
    Some(children.and(own.finish()))
}

#[test]
fn one_is_last(rt: HostRuntime) -> Result<(), Fail> {
    let mut right = 0u32;
    for _round in 0..ROUNDS {
        if let Some(seen) = round(&rt, rt.alloc()) {
            if seen.lasts == 1 && seen.sum == 63 && seen.fetched == 9 {
                right = right.wrapping_add(1);
            }
        }
    }
    assert_eq!(rt; right, ROUNDS);
    Ok(())
}

// Takes a child back: whether its place is in use before, its ask, whether the place is in use after, and which is free then.
fn undo(owner: &mut Owner<Successor>, child: Child<Successor>) -> (bool, u32, bool, u32)
    requires owner { owner.old.is_open ≡ true }
    requires child { (child_board_of child ≡ board_of owner.old) × (child.is_full ≡ false) }
    ensures owner { (owner.new.is_open ≡ true) × (board_of owner.new ≡ board_of owner.old) }
{
    let place = child.place();
    let before = owner.used(place);
    let ask = back(owner, child);
    (before, ask, owner.used(place), owner.free())
}

// A scope on one thread, of whose two children the first is taken back: what that told, how often the first to arrive and then the other were the last, and the sum that the last collected.
fn undone(alloc: Global, parks_first: bool) -> Option<((bool, u32, bool, u32), (u32, u32, u32))> {
    let Ok(mut owner) = start::<Successor>(alloc, 3, 7) else {
        return None;
    };
    let first = child(&mut owner, 10)?;
    let second = child(&mut owner, 20)?;
    let undone = undo(&mut owner, first);
    let (earlier, later) = if parks_first {
        let own = post_and_park(owner);
        (own.seen, answer(second).seen)
    } else {
        let other = answer(second);
        (other.seen, post_and_park(owner).seen)
    };
    Some((undone, (earlier.lasts, later.lasts, later.sum)))
}

#[test]
fn a_child_is_taken_back(rt: HostRuntime) -> Result<(), Fail> {
    let expected = Some(((true, 10, false, 0), (0, 1, 21)));
    assert_eq!(rt; undone(rt.alloc(), false), expected);
    assert_eq!(rt; undone(rt.alloc(), true), expected);
    Ok(())
}
