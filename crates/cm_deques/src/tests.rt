//! Numbers below a bound: pushed and stolen on one thread, popped, and stolen by three threads while a fourth pushes.
ghost use Rattle.std.specs.Prelude.{◌≡◌, ◌<◌, ◌≤◌, Some};
ghost use Rattle.cm_deques.specs.Seen.{home_of};

use super::{Deque, Side, Stolen, Task};
use cm_text::Memory;
use std::alloc::Global;
use std::sync::Wait;
use std::test::Fail;
use std::thread::{Threads, join};

// How many numbers are pushed while others steal, and after them one for each thief, at which it stops.
const NUMBERS: u32 = 100_000;

const ALL: u32 = NUMBERS + 3;

const TRIES: u32 = 500_000_000;

// A home of the numbers below its end.
#[derive(Drop)]
struct Below {
    end: u32,
}

#[derive(Drop)]
struct Number {
    value: u32,
}

impl Task for Number {
    type Home = Below;

    ghost lies = { λ home n. n.value < home.end };
}

// Pushes the numbers from 0 on, and counts those that were not refused.
fn push_all(deque: &mut Deque<Number>, home: &Below, count: u32) -> u32
    requires home { home_of deque.old ≡ Some home.now }
    requires inside { count ≤ home.now.end }
    ensures home { home_of deque.new ≡ home_of deque.old }
{
    let mut pushed = 0u32;
    for value in 0..count {
        if deque.push(Number { value }).is_ok() {
            pushed = pushed.wrapping_add(1);
        }
    }
    pushed
}

// Was this number stolen?
fn is_stolen(side: &mut Side<Number>, value: u32) -> bool {
    match side.steal() {
        Stolen::Got(number) => number.value == value,
        Stolen::Empty => false,
        Stolen::Retry => false,
    }
}

// How many of so many steals, by one side or by two in turn, give the numbers in the order of the pushes.
fn stolen_in_order(alloc: Global, count: u32, by_two: bool) -> Result<u32, Memory> {
    let home = Below { end: count };
    let (mut deque, mut one) = Deque::<Number>::make(alloc, 8, &home)?;
    let mut other = deque.share(&home)?;
    let _pushed = push_all(&mut deque, &home, count);
    let mut found = 0u32;
    for value in 0..count {
        let is_found = if by_two && value % 2 == 1 {
            is_stolen(&mut other, value)
        } else {
            is_stolen(&mut one, value)
        };
        if is_found {
            found = found.wrapping_add(1);
        }
    }
    Ok(found)
}

// How many of so many pops give the numbers, the last one first.
fn popped_in_order(alloc: Global, count: u32) -> Result<(u32, bool), Memory> {
    let home = Below { end: count };
    let (mut deque, _side) = Deque::<Number>::make(alloc, 8, &home)?;
    let _pushed = push_all(&mut deque, &home, count);
    let mut found = 0u32;
    for i in 0..count {
        if let Some(number) = deque.pop() {
            if number.value == count - 1 - i {
                found = found.wrapping_add(1);
            }
        }
    }
    Ok((found, deque.pop().is_none()))
}

// One more of this number was seen.
fn count_one(seen: &mut Vec<u32>, value: u32) {
    if let Some(count) = seen.get_mut(value as usize) {
        *count = count.wrapping_add(1);
    }
}

// Steals until it gets one of the last numbers.
fn thief(side: &mut Side<Number>, seen: &mut Vec<u32>) {
    for _ in 0..TRIES {
        if let Stolen::Got(number) = side.steal() {
            count_one(seen, number.value);
            if NUMBERS <= number.value {
                return;
            }
        }
    }
}

// Which numbers were seen once in all.
fn seen_once(seen: &[Vec<u32>]) -> u32 {
    let mut once = 0u32;
    for value in 0..ALL {
        let mut count = 0u32;
        for counts in seen {
            if let Some(more) = counts.get(value as usize) {
                count = count.wrapping_add(*more);
            }
        }
        if count == 1 {
            once = once.wrapping_add(1);
        }
    }
    once
}

#[test]
fn steals_and_pops_keep_the_order(rt: HostRuntime) -> Result<(), Fail> {
    for count in [1, 2, 5] {
        assert_eq!(rt; stolen_in_order(rt.alloc(), count, false), Ok(count));
        assert_eq!(rt; stolen_in_order(rt.alloc(), count, true), Ok(count));
        assert_eq!(rt; popped_in_order(rt.alloc(), count), Ok((count, true)));
    }
    Ok(())
}

// The owner pushes all numbers while a thief steals.
fn push_beside_thief<R: Threads + Wait + Sync>(
    rt: &R,
    deque: &mut Deque<Number>,
    home: &Below,
    side: &mut Side<Number>,
    seen: &mut Vec<u32>,
) -> u32
    requires home { home_of deque.old ≡ Some home.now }
    requires inside { 100003 ≤ home.now.end }
{
    let (pushed, ()) = join(
        rt,
        || -> u32
            requires { (home_of deque.now ≡ Some home.now) × (100003 ≤ home.now.end) }
        { push_all(deque, home, ALL) },
        || thief(side, seen),
    );
    pushed
}

// Two thieves steal.
fn two_thieves<R: Threads + Wait + Sync>(
    rt: &R,
    one: &mut Side<Number>,
    seen_one: &mut Vec<u32>,
    two: &mut Side<Number>,
    seen_two: &mut Vec<u32>,
) {
    let ((), ()) = join(rt, || thief(one, seen_one), || thief(two, seen_two));
}

#[test]
fn each_task_comes_out_once(rt: HostRuntime) -> Result<(), Fail> {
    let home = Below { end: ALL };
    let (mut deque, mut one) = Deque::<Number>::make(rt.alloc(), 64, &home)?;
    let mut two = deque.share(&home)?;
    let mut three = deque.share(&home)?;
    let mut seen_one = Vec::from_elem(rt.alloc(), 0u32, ALL as usize)?;
    let mut seen_two = Vec::from_elem(rt.alloc(), 0u32, ALL as usize)?;
    let mut seen_three = Vec::from_elem(rt.alloc(), 0u32, ALL as usize)?;
    let (pushed, ()) = join(
        &rt,
        || -> u32
            requires { (home_of deque ≡ Some home) × (100003 ≤ home.end) }
        { push_beside_thief(&rt, &mut deque, &home, &mut one, &mut seen_one) },
        || two_thieves(&rt, &mut two, &mut seen_two, &mut three, &mut seen_three),
    );
    assert_eq!(rt; pushed, ALL);
    let mut seen = Vec::with_capacity(rt.alloc(), 3)?;
    seen.push(seen_one)?;
    seen.push(seen_two)?;
    seen.push(seen_three)?;
    assert_eq!(rt; seen_once(seen.as_slice()), ALL);
    Ok(())
}
