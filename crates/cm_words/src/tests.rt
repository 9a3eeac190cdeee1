//! Two threads on one region: each stores in every other word of a page, and both read another page, which is whole again in
//! the end.
ghost use Rattle.std.specs.Prelude.{◌≡◌, ◌<◌, ◌≤◌, true};
ghost use Rattle.cm_words.specs.Every.{every};
ghost use Rattle.cm_words.specs.Held.{is_held, is_whole};
ghost use Rattle.cm_words.specs.RegionOf.{region_of};

use super::{Grant, Region, Span};
use std::test::Fail;
use std::thread::join;

const ROUNDS: u32 = 2_000;

/// Every other place of the first page.
const EVENS: [Span; 32] = [
    Span { first: 0, count: 1 },
    Span { first: 2, count: 1 },
    Span { first: 4, count: 1 },
    Span { first: 6, count: 1 },
    Span { first: 8, count: 1 },
    Span {
        first: 10,
        count: 1,
    },
    Span {
        first: 12,
        count: 1,
    },
    Span {
        first: 14,
        count: 1,
    },
    Span {
        first: 16,
        count: 1,
    },
    Span {
        first: 18,
        count: 1,
    },
    Span {
        first: 20,
        count: 1,
    },
    Span {
        first: 22,
        count: 1,
    },
    Span {
        first: 24,
        count: 1,
    },
    Span {
        first: 26,
        count: 1,
    },
    Span {
        first: 28,
        count: 1,
    },
    Span {
        first: 30,
        count: 1,
    },
    Span {
        first: 32,
        count: 1,
    },
    Span {
        first: 34,
        count: 1,
    },
    Span {
        first: 36,
        count: 1,
    },
    Span {
        first: 38,
        count: 1,
    },
    Span {
        first: 40,
        count: 1,
    },
    Span {
        first: 42,
        count: 1,
    },
    Span {
        first: 44,
        count: 1,
    },
    Span {
        first: 46,
        count: 1,
    },
    Span {
        first: 48,
        count: 1,
    },
    Span {
        first: 50,
        count: 1,
    },
    Span {
        first: 52,
        count: 1,
    },
    Span {
        first: 54,
        count: 1,
    },
    Span {
        first: 56,
        count: 1,
    },
    Span {
        first: 58,
        count: 1,
    },
    Span {
        first: 60,
        count: 1,
    },
    Span {
        first: 62,
        count: 1,
    },
];

// Stores a word at every other of 64 places, from `at` on.
fn store_words(region: &Region, grant: &mut Grant, at: u32, word: u32)
    requires here { grant.old.region ≡ region_of region.now }
    requires at { at < 66 }
    requires whole { every is_whole 2 32 at grant.old.cells ≡ true }
    ensures here { grant.new.region ≡ grant.old.region }
    ensures whole { every is_whole 2 32 at grant.new.cells ≡ true }
{
    for i in 0..32u32 {
        region.store(grant, at + 2 * i, word.wrapping_add(i));
    }
}

// Adds up the words of the second page.
fn sum_words(region: &Region, grant: &mut Grant) -> u32
    requires here { grant.old.region ≡ region_of region.now }
    requires held { every is_held 1 64 64 grant.old.cells ≡ true }
    ensures same { grant.new ≡ grant.old }
{
    let mut sum = 0u32;
    for i in 0..64u32 {
        sum = sum.wrapping_add(region.load(grant, 64 + i));
    }
    sum
}

// What each thread does: it stores in its own words and reads the others, again and again.
fn work(region: &Region, mut own: Grant, mut seen: Grant, at: u32) -> (Grant, Grant, u32)
    requires here { (own.region ≡ region_of region.now) × (seen.region ≡ region_of region.now) }
    requires at { at < 2 }
    requires whole { every is_whole 2 32 at own.cells ≡ true }
    requires held { every is_held 1 64 64 seen.cells ≡ true }
    ensures here { (result.0.region ≡ region_of region.now) × (result.1.region ≡ region_of region.now) }
    ensures whole { every is_whole 2 32 at result.0.cells ≡ true }
    ensures same { result.1 ≡ seen }
{
    let mut sum = 0u32;
    for round in 0..ROUNDS {
        store_words(region, &mut own, at, round.wrapping_add(1000 * at));
        sum = sum.wrapping_add(sum_words(region, &mut seen));
    }
    (own, seen, sum)
}

// What the second page has, and what every other of its words has where they are stored anew.
fn use_page(region: &Region, grant: &mut Grant) -> (u32, u32, u32)
    requires here { grant.old.region ≡ region_of region.now }
    requires held { every is_held 1 64 64 grant.old.cells ≡ true }
    requires whole { every is_whole 2 32 64 grant.old.cells ≡ true }
{
    let sum = sum_words(region, grant);
    store_words(region, grant, 64, 100);
    (sum, region.load(grant, 64), region.load(grant, 126))
}

#[test]
fn threads_share_words(rt: HostRuntime) -> Result<(), Fail> {
    let (region, mut first) = Region::make(rt.alloc(), 128)?;
    let mut second = region.part(
        &mut first,
        Span {
            first: 64,
            count: 64,
        },
    );
    region.store(&mut second, 64, 5);
    region.store(&mut second, 127, 9);
    let lent = region.halve(
        &mut second,
        Span {
            first: 64,
            count: 64,
        },
    );
    let evens = region.part_all(&mut first, &EVENS);
    let ((mut words, mut second, sum), (odds, lent, other_sum)) = join(
        &rt,
        || -> (Grant, Grant, u32)
            requires { (evens.region ≡ region_of region) × (second.region ≡ region_of region) × (every is_whole 2 32 0 evens.cells ≡ true) × (every is_held 1 64 64 second.cells ≡ true) }
            ensures { (result.0.region ≡ region_of region) × (result.1.region ≡ region_of region) × (every is_whole 2 32 0 result.0.cells ≡ true) × (result.1.cells ≡ second.cells) }
        { work(&region, evens, second, 0) },
        || -> (Grant, Grant, u32)
            requires { (first.region ≡ region_of region) × (lent.region ≡ region_of region) × (every is_whole 2 32 1 first.cells ≡ true) × (every is_held 1 64 64 lent.cells ≡ true) }
            ensures { (result.0.region ≡ region_of region) × (result.1.region ≡ region_of region) × (every is_whole 2 32 1 result.0.cells ≡ true) × (result.1.cells ≡ lent.cells) }
        { work(&region, first, lent, 1) },
    );
    region.unite(&mut words, odds);
    region.unite(&mut second, lent);
    assert_eq!(rt; sum, 14 * ROUNDS);
    assert_eq!(rt; other_sum, 14 * ROUNDS);
    assert_eq!(rt; use_page(&region, &mut second), (14, 100, 131));
    for i in 0..32u32 {
        assert_eq!(rt; region.load(&mut words, 2 * i), ROUNDS - 1 + i);
        assert_eq!(rt; region.load(&mut words, 2 * i + 1), ROUNDS - 1 + 1000 + i);
    }
    Ok(())
}
