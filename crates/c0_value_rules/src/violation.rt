//! The typing rules, and the violation of one that is reported.

ghost use Rattle.std.specs.Prelude.{◌≡◌, fold};
ghost use Rattle.c0_value_rules.specs.declared.violation.TypeFault.TheVariants.{Memory};
ghost use Rattle.c0_value_rules.specs.Violations.{rank, comes_before, earlier, unless, fault_at, violation};

use gc0_base::Place;
use std::alloc::AllocError;
use thiserror::Error;

/// A typing rule of the language, in the order in which two are reported at one place.
#[derive(Clone, Copy, Debug, PartialEq, Eq)]
pub enum Rule {
    /// A name stands for what is defined or in scope.
    Unknown,
    /// A name space has one definition of a name, and no local the name of another in scope.
    Twice,
    /// A value has the type that is due, and a type is one that its place allows.
    WrongType,
    /// A call has an argument for each parameter.
    WrongCount,
    /// A local is read where every path has assigned it.
    Unassigned,
    /// No path leads to the end of a function with a result.
    NoReturn,
    /// A parameter that `ensures` names is not assigned.
    AssignedInEnsures,
    /// There is a function `int main()`.
    NoMain,
}

/// A rule that a text violates, and where.
#[derive(Clone, Copy, Debug, PartialEq, Eq)]
pub struct Violation {
    /// The rule.
    pub rule: Rule,
    /// The place of the token that violates it.
    pub place: Place,
}

/// Why a text was not resolved.
#[derive(Clone, Copy, Debug, PartialEq, Eq, Error)]
pub enum TypeFault {
    /// The name has no definition, or stands for nothing in scope.
    #[error("unknown name at {}:{}", .0.line, .0.column)]
    Unknown(Place),
    /// The name is defined before in its space, or is that of a local in scope.
    #[error("second definition at {}:{}", .0.line, .0.column)]
    Twice(Place),
    /// A value has another type than is due, or a type stands where it may not.
    #[error("wrong type at {}:{}", .0.line, .0.column)]
    WrongType(Place),
    /// A call of this name has another number of arguments than parameters.
    #[error("wrong count of arguments at {}:{}", .0.line, .0.column)]
    WrongCount(Place),
    /// A local is read where a path has not assigned it.
    #[error("read before an assignment at {}:{}", .0.line, .0.column)]
    Unassigned(Place),
    /// A function with a result has a path to its end.
    #[error("no return at {}:{}", .0.line, .0.column)]
    NoReturn(Place),
    /// A parameter that `ensures` names is assigned.
    #[error("assigned in spite of `ensures` at {}:{}", .0.line, .0.column)]
    AssignedInEnsures(Place),
    /// There is no function `int main()` without parameters.
    #[error("no main")]
    NoMain(Place),
    /// There was not memory enough, or a count did not fit.
    #[error("not enough memory")]
    Memory,
}

impl From<AllocError> for TypeFault {
    ghost from_gives = { λ _ e. e ≡ Memory };

    fn from(_: AllocError) -> Self {
        TypeFault::Memory
    }
}

/// The fault that reports a violation.
pub fn fault_at(rule: Rule, place: Place) -> TypeFault
    ensures { result ≡ fault_at rule place }
{
    match rule {
        Rule::Unknown => TypeFault::Unknown(place),
        Rule::Twice => TypeFault::Twice(place),
        Rule::WrongType => TypeFault::WrongType(place),
        Rule::WrongCount => TypeFault::WrongCount(place),
        Rule::Unassigned => TypeFault::Unassigned(place),
        Rule::NoReturn => TypeFault::NoReturn(place),
        Rule::AssignedInEnsures => TypeFault::AssignedInEnsures(place),
        Rule::NoMain => TypeFault::NoMain(place),
    }
}

/// Keeps a violation if it comes before the least one so far.
pub fn report(least: &mut Option<Violation>, rule: Rule, place: Place)
    ensures { least.new ≡ earlier least.old (violation rule place) }
{
    let found = Violation { rule, place };
    match *least {
        Some(known) if !comes_before(found, known) => {}
        _ => *least = Some(found),
    }
}

/// Reports a violation of a rule, unless it is kept.
pub fn report_unless(least: &mut Option<Violation>, kept: bool, rule: Rule, place: Place)
    ensures { least.new ≡ fold earlier least.old (unless kept rule place) }
{
    if !kept {
        report(least, rule, place);
    }
}

fn comes_before(v: Violation, w: Violation) -> bool
    ensures { result ≡ comes_before v w }
{
    v.place.line < w.place.line
        || (v.place.line == w.place.line
            && (v.place.column < w.place.column
                || (v.place.column == w.place.column && rank(v.rule) < rank(w.rule))))
}

// The order of the rules at one place.
fn rank(rule: Rule) -> u32
    ensures { result ≡ rank rule }
{
    match rule {
        Rule::Unknown => 0,
        Rule::Twice => 1,
        Rule::WrongType => 2,
        Rule::WrongCount => 3,
        Rule::Unassigned => 4,
        Rule::NoReturn => 5,
        Rule::AssignedInEnsures => 6,
        Rule::NoMain => 7,
    }
}
