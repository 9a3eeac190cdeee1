//! The rule of a region's table.
use crate::view::View;
use atomic_table::TableRule;

/// No point of a place lies with two grants, and the word that a grant gives is the word there.
pub struct RegionRule;

/// The key is the number of words.
impl TableRule<(), View, u32> for RegionRule {
    ghost use Rattle.cm_words.specs.Rule.{Ruled, all_words};

    ghost holds = { Ruled };

    ghost first = { all_words };
}
