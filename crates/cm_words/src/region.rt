//! A region of words, and the grants of its places.
ghost use Rattle.std.specs.Prelude.{◌≡◌, ℕ, true, ◌<◌, ◌≤◌, [], length, Some, replicate, slice_set, IfOk};
ghost use base.Stored.{Coded-set};
ghost use Rattle.cm_share.specs.Share.{whole};
ghost use Rattle.cm_words.specs.Held.{Held, held, cell, HeldSum, IsHeld, cells_coded, word_in, InSpan, in_span, kept_of, parted_of, kept_half_of, lent_half_of, each};

use crate::play::{Cut, Gather, Halve, Merge, Places, Read, Write};
use crate::rule::RegionRule;
use crate::view::View;
use atomic_table::{Seat, Table};
use cm_text::Memory;
use std::alloc::Global;
use std::marker::{Brand, Model};

/// The places from `first` on, `count` of them.
#[derive(Clone, Copy, Drop)]
pub struct Span {
    pub first: u32,
    pub count: u32,
}

/// Words that threads share, at the places from 0 on.
#[derive(Drop)]
pub struct Region {
    table: Table<(), View, u32, RegionRule, Global>,
    ghost counted: { table.shared.table_id.words ≡ table.shared.key },
    ghost some_word: { 0 < table.shared.key },
}

/// Shares of places of a region, each with the word there.
#[derive(Drop)]
pub struct Grant {
    seat: Seat<(), View>,
}

impl Model for Grant {
    ghost use Rattle.std.specs.Prelude.{◌≡◌, ◌≤◌, [], length};
    ghost use Rattle.cm_words.specs.Granted.{Granted, granted_coded};

    ghost Value = { Granted };

    ghost coded = { granted_coded };

    ghost view = { λ g. record { region = g.seat.table_id; cells = g.seat.me.0.cells } };

    ghost invariant = { λ g. (g.seat.me.1 ≡ []) × (length g.seat.me.0.cells ≤ g.seat.table_id.words) × (g.seat.me.0.more ≡ []) };
}

impl Region {
    ghost use Rattle.cm_words.specs.RegionOf.{region_of};
    ghost use Rattle.cm_words.specs.Spans.{in_spans};

    /// A region of so many words, each 0, with one grant of them all.
    pub fn make(alloc: Global, words: u32) -> Result<(Region, Grant), Memory>
        requires some_word { 0 < words }
        ensures here { IfOk result (λ r. r.1.region ≡ region_of r.0) }
        ensures grant { IfOk result (λ r. r.1.cells ≡ replicate words (held whole 0)) }
    {
        let Ok(zeros) = vec![in alloc; 0; words as usize] else {
            return Err(Memory);
        };
        let Ok((table, seat)) = Table::of_words(alloc, &zeros, &words) else {
            return Err(Memory);
        };
        Ok((Region { table }, Grant { seat }))
    }

    /// The word at a place of the grant.
    pub fn load(&self, grant: &mut Grant, at: u32) -> u32
        requires here { grant.old.region ≡ region_of self.now }
        requires held { IsHeld (cell grant.old.cells at) }
        ensures same { grant.new ≡ grant.old }
        ensures word { word_in (cell grant.old.cells at) ≡ Some result }
    {
        self.table.shared.load::<Read>(&mut grant.seat, at as usize) as u32
    }

    /// Puts a word at a place that the grant has the whole of.
    pub fn store(&self, grant: &mut Grant, at: u32, word: u32)
        requires here { grant.old.region ≡ region_of self.now }
        requires whole { (old : ℕ) × (cell grant.old.cells at ≡ held whole old) }
        ensures here { grant.new.region ≡ grant.old.region }
        ensures put { grant.new.cells ≡ slice_set grant.old.cells at (held whole word) }
    {
        let stored = word as u64;
        self.table
            .shared
            .store::<Write>(&mut grant.seat, at as usize, stored)
    }

    // Takes what the grant has of the places that the call picks.
    fn cut<N: Places, P>(&self, grant: &mut Grant, places: &P) -> Grant
        requires here { grant.old.region ≡ region_of self.now }
        ensures here { (grant.new.region ≡ grant.old.region) × (result.region ≡ grant.old.region) }
        ensures kept { grant.new.cells ≡ each (kept_of N.inside) 0 grant.old.cells }
        ensures parted { result.cells ≡ each (parted_of N.inside) 0 grant.old.cells }
    {
        let _places = places;
        Grant {
            seat: self.table.shared.split_seat::<Cut<N>>(&mut grant.seat),
        }
    }

    /// Takes the places of a span out of the grant, with the shares that it has.
    pub fn part(&self, grant: &mut Grant, span: Span) -> Grant
        requires here { grant.old.region ≡ region_of self.now }
        requires held { (i : ℕ) → InSpan span.first span.count i → IsHeld (cell grant.old.cells i) }
        ensures here { (grant.new.region ≡ grant.old.region) × (result.region ≡ grant.old.region) }
        ensures kept { grant.new.cells ≡ each (kept_of (in_span span.first span.count)) 0 grant.old.cells }
        ensures parted { result.cells ≡ each (parted_of (in_span span.first span.count)) 0 grant.old.cells }
    {
        self.cut::<Brand, Span>(grant, &span)
    }

    /// Takes the places of several spans out of the grant at once, with the shares that it has.
    pub fn part_all(&self, grant: &mut Grant, spans: &[Span]) -> Grant
        requires here { grant.old.region ≡ region_of self.now }
        requires held { (i : ℕ) → in_spans spans.now i ≡ true → IsHeld (cell grant.old.cells i) }
        ensures here { (grant.new.region ≡ grant.old.region) × (result.region ≡ grant.old.region) }
        ensures kept { grant.new.cells ≡ each (kept_of (in_spans spans.now)) 0 grant.old.cells }
        ensures parted { result.cells ≡ each (parted_of (in_spans spans.now)) 0 grant.old.cells }
    {
        self.cut::<Brand, &[Span]>(grant, &spans)
    }

    // Takes half of what the grant has of the places that the call picks.
    fn split<N: Places>(&self, grant: &mut Grant, span: &Span) -> Grant
        requires here { grant.old.region ≡ region_of self.now }
        ensures here { (grant.new.region ≡ grant.old.region) × (result.region ≡ grant.old.region) }
        ensures kept { grant.new.cells ≡ each (kept_half_of N.inside) 0 grant.old.cells }
        ensures parted { result.cells ≡ each (lent_half_of N.inside) 0 grant.old.cells }
    {
        let _span = span;
        Grant {
            seat: self.table.shared.split_seat::<Halve<N>>(&mut grant.seat),
        }
    }

    /// Halves the share of each place of a span: the grant keeps the first half, and the new one has the second.
    pub fn halve(&self, grant: &mut Grant, span: Span) -> Grant
        requires here { grant.old.region ≡ region_of self.now }
        requires held { (i : ℕ) → InSpan span.first span.count i → IsHeld (cell grant.old.cells i) }
        ensures here { (grant.new.region ≡ grant.old.region) × (result.region ≡ grant.old.region) }
        ensures kept { grant.new.cells ≡ each (kept_half_of (in_span span.first span.count)) 0 grant.old.cells }
        ensures lent { result.cells ≡ each (lent_half_of (in_span span.first span.count)) 0 grant.old.cells }
    {
        self.split::<Brand>(grant, &span)
    }

    /// Adds the other grant's shares.
    pub fn unite(&self, grant: &mut Grant, other: Grant)
        requires here { (grant.old.region ≡ region_of self.now) × (other.region ≡ region_of self.now) }
        ensures here { grant.new.region ≡ grant.old.region }
        ensures sum { (i : ℕ) → HeldSum (cell grant.old.cells i) (cell other.cells i) (cell grant.new.cells i) }
    {
        let Grant { seat } = other;
        self.table.shared.join_seat::<Gather>(&mut grant.seat, seat);
        self.table.shared.load::<Merge>(&mut grant.seat, 0);
    }
}
