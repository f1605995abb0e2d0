//! Which of two programs is less precise.
#![tactic(auto)]

mod same;

ghost use Rattle.precision_order.specs.Precision.{IsOrder, FirstIsBest};

pub use same::same_expr;

/// Lost precision is an order of programs. It holds of the definitions, so this function does
/// nothing.
pub fn precision_is_an_order()
    ensures { IsOrder }
{}

/// What was left out of conjuncts is found from left to right, without going back. It holds of the
/// definitions, so this function does nothing.
pub fn first_match_is_best()
    ensures { FirstIsBest }
{}
