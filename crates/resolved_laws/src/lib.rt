//! Laws of the program that a text without violations is resolved to.
#![tactic(auto)]

ghost use Rattle.resolved_laws.specs.Laws.{ends_law, kept_law, operators_law, formulas_law};

mod numbers;

pub use numbers::numbers_are_words;

/// Where no typing rule is broken, no path of the program that a text is resolved to reaches the end
/// of a function with a result. It holds of the definitions, so this function does nothing.
pub fn resolved_ends()
    ensures { ends_law }
{}

/// Where no typing rule is broken, no parameter that `ensures` names is assigned in the resolved
/// program. It holds of the definitions, so this function does nothing.
pub fn resolved_keeps()
    ensures { kept_law }
{}

/// Each operator of `op=` in a resolved program gives an int. It holds of the definitions, so this
/// function does nothing.
pub fn resolved_operators()
    ensures { operators_law }
{}

/// No formula of the program that a text is resolved to calls a function, and each `fold` and
/// `unfold` in it states one instance. It holds of the definitions, so this function does nothing.
pub fn resolved_formulas_fit()
    ensures { formulas_law }
{}
