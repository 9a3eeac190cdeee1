//! Tasks of two kinds: numbers, put and taken by two threads again and again, and bundles that are as long as they say.
ghost use Rattle.std.specs.Prelude.{◌≡◌, ◌<◌, Some, IfSome, IfOk, vec_len};
ghost use Rattle.cm_rack.specs.Seen.{rack_of, places_of, hand_rack};

use super::{Busy, Hand, Rack, Racked, Ticket, rack};
use std::collections::LinkedList;
use std::test::Fail;
use std::thread::join;

const ROUNDS: u32 = 10_000;

// A number, whose tag is its value.
#[derive(Drop)]
struct Number {
    value: u32,
}

impl Racked for Number {
    type Tag = u32;

    ghost tag = { λ n. n.value };
}

// A bundle is as long as it says, and its tag is what is in it: so what is taken is what was put, and is as long as it says.
#[derive(Drop)]
struct Bundle {
    items: Vec<u32>,
    len: usize,
    ghost told: { vec_len items ≡ len },
}

impl Racked for Bundle {
    type Tag = LinkedList<u32>;

    ghost tag = { λ b. b.items.items };
}

// Two bundles are put, and taken in the other order.
fn swapped(
    rack: &Rack<Bundle>,
    hand: &mut Hand<Bundle>,
    first: Bundle,
    second: Bundle,
) -> Option<(Bundle, Bundle)>
    requires hand { hand_rack hand.old ≡ rack_of rack.now }
    requires places { 1 < places_of rack.now }
    ensures hand { hand_rack hand.new ≡ hand_rack hand.old }
    ensures items { IfSome result (λ r. (r.0.items.items ≡ second.items.items) × (r.1.items.items ≡ first.items.items)) }
    ensures lengths { IfSome result (λ r. vec_len r.0.items ≡ r.0.len) }
{
    let Ok(left) = rack.put(hand, 0, first) else {
        return None;
    };
    let Ok(right) = rack.put(hand, 1, second) else {
        return None;
    };
    let second = rack.take(right);
    let first = rack.take(left);
    Some((second, first))
}

// Puts numbers into a place and takes them, so many times, and counts how often the number came back.
fn put_and_take(rack: &Rack<Number>, hand: &mut Hand<Number>, place: u32) -> u32
    requires hand { hand_rack hand.old ≡ rack_of rack.now }
    requires place { place < places_of rack.now }
    ensures hand { hand_rack hand.new ≡ hand_rack hand.old }
{
    let mut found = 0u32;
    for value in 0..ROUNDS {
        if let Ok(ticket) = rack.put(hand, place, Number { value }) {
            if rack.take(ticket).value == value {
                found = found.wrapping_add(1);
            }
        }
    }
    found
}

// What a second put into a filled place gives back, and what a put gives once the place was emptied.
fn busy_then_empty(rack: &Rack<Number>, hand: &mut Hand<Number>) -> Option<(u32, u32, u32)>
    requires hand { hand_rack hand.old ≡ rack_of rack.now }
    requires places { 1 < places_of rack.now }
    ensures hand { hand_rack hand.new ≡ hand_rack hand.old }
{
    let Ok(first) = rack.put(hand, 0, Number { value: 7 }) else {
        return None;
    };
    let Err(Busy { task }) = rack.put(hand, 0, Number { value: 8 }) else {
        return None;
    };
    let taken = rack.take(first);
    let Ok(again) = rack.put(hand, 0, Number { value: 9 }) else {
        return None;
    };
    Some((task.value, taken.value, rack.take(again).value))
}

#[test]
fn two_threads_put_and_take(rt: HostRuntime) -> Result<(), Fail> {
    let (rack, mut hands) = rack::<Number>(rt.alloc(), 2, 2)?;
    let mut other = hands.remove(1);
    let mut one = hands.remove(0);
    assert_eq!(rt; busy_then_empty(&rack, &mut one), Some((8, 7, 9)));
    let (left, right) = join(
        &rt,
        || -> u32
            requires { (hand_rack one ≡ rack_of rack) × (1 < places_of rack) }
        { put_and_take(&rack, &mut one, 0) },
        || -> u32
            requires { (hand_rack other ≡ rack_of rack) × (1 < places_of rack) }
        { put_and_take(&rack, &mut other, 1) },
    );
    assert_eq!(rt; left, ROUNDS);
    assert_eq!(rt; right, ROUNDS);
    Ok(())
}

#[test]
fn bundles_are_swapped(rt: HostRuntime) -> Result<(), Fail> {
    let (rack, mut hands) = rack::<Bundle>(rt.alloc(), 2, 1)?;
    let mut hand = hands.remove(0);
    let mut items = Vec::with_capacity(rt.alloc(), 2)?;
    items.push(3)?;
    items.push(5)?;
    let first = Bundle { items, len: 2 };
    let second = Bundle {
        items: Vec::new(rt.alloc()),
        len: 0,
    };
    let lengths = match swapped(&rack, &mut hand, first, second) {
        Some((second, first)) => Some((
            second.len,
            second.items.len(),
            first.len,
            first.items.len(),
        )),
        None => None,
    };
    assert_eq!(rt; lengths, Some((0, 0, 2, 2)));
    Ok(())
}
