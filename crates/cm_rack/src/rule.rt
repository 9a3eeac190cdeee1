//! The rule of a rack's table.
use crate::racked::Racked;
use crate::view::View;
use atomic_table::TableRule;
use std::marker::PhantomData;

/// Each place that is filled or held belongs to exactly one seat, which says so.
pub struct RackRule<T> {
    task: PhantomData<T>,
}

impl<T: Racked> TableRule<Option<T>, View<T::Tag>, ()> for RackRule<T> {
    ghost use Rattle.std.specs.Prelude.{[]};
    ghost use Rattle.cm_rack.specs.declared.view.View.TheVariants.{Idle};
    ghost use Rattle.cm_rack.specs.Rule.{Ruled};

    ghost holds = { λ key. Ruled T.tag };

    ghost first = { λ key. Idle [] };
}
