//! The names of the steps on a region's table.
ghost use Rattle.std.specs.Prelude.{ℕ, Bool, false};
ghost use Rattle.cm_words.specs.Play.{read, written, merged, kept_span, parted_span, kept_halves, lent_halves, both_lists, nothing_left};

use crate::view::View;
use atomic_table::{Join, Play, Split};
use std::marker::{Brand, PhantomData};

/// A load of a place of the grant.
pub struct Read;

impl Play<(), View> for Read {
    ghost then = { λ st m r n. read st.word m r n };
}

/// A store at a place that the grant has the whole of.
pub struct Write;

impl Play<(), View> for Write {
    ghost then = { λ st m r n. written st.word st.first m n };
}

/// A load that makes the two lists of a view one.
pub struct Merge;

impl Play<(), View> for Merge {
    ghost then = { λ st m r n. merged m n };
}

/// Some places of a region, which the call picks.
pub trait Places {
    ghost inside: { ℕ → Bool };
}

impl Places for Brand {
    ghost inside = { λ i. false };
}

/// Some places leave a grant for a new one.
pub struct Cut<N> {
    names: PhantomData<N>,
}

impl<N: Places> Split<View> for Cut<N> {
    ghost left = { kept_span N.inside };

    ghost right = { parted_span N.inside };
}

/// The half of the share of some places leaves a grant for a new one.
pub struct Halve<N> {
    names: PhantomData<N>,
}

impl<N: Places> Split<View> for Halve<N> {
    ghost left = { kept_halves N.inside };

    ghost right = { lent_halves N.inside };
}

/// All of a grant goes beside another.
pub struct Gather;

impl Join<View> for Gather {
    ghost both = { both_lists };

    ghost spent = { nothing_left };
}
