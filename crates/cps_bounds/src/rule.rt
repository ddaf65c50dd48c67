//! The rule of the two words.
use crate::view::View;
use atomic_table::TableRule;
use cps_validate::ValidModel;

/// The upper word is the least offer of all seats, and the lower one the greatest of the start and of all raises.
pub struct TwoBounds;

impl TableRule<(), View, ValidModel> for TwoBounds {
    ghost use Rattle.cps_bounds.specs.Rule.{KeptWords, first_view};

    ghost holds = { KeptWords };

    ghost first = { first_view };
}
