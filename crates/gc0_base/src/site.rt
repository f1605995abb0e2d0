//! The sites of a program, what is decided there, and how a run ends.

use crate::word::Word;

/// What is decided at a site.
#[derive(Clone, Copy, Debug, PartialEq, Eq)]
pub enum Kind {
    /// The `requires` of `main`, at its name.
    Start,
    /// The callee's `requires`, at the callee's name in a call.
    Requires,
    /// The function's `ensures`, at a `return` or at the closing brace.
    Ensures,
    /// An invariant at the first head of its loop.
    Entry,
    /// An invariant at a later head of its loop.
    Again,
    /// The formula of an `assert` annotation.
    Assert,
    /// The formula of a `fold`.
    Fold,
    /// The formula of an `unfold`.
    Unfold,
    /// Whether a cell is owned, at a `->` of the code.
    Access,
    /// A fault of C0 itself.
    Trap,
}

/// A place of the program where something is decided.
#[derive(Clone, Copy, Debug, PartialEq, Eq)]
pub struct Site {
    /// The number of the function in which the site stands.
    pub function: u32,
    /// What is decided there.
    pub kind: Kind,
    /// The number of the site among those of its function and kind, from 0, in text order.
    pub ordinal: u32,
}

/// A fault of C0 itself.
#[derive(Clone, Copy, Debug, PartialEq, Eq)]
pub enum TrapKind {
    /// A `NULL` was followed.
    Null,
    /// A divisor was 0, or the least integer was divided by -1.
    Division,
    /// A shift by less than 0 or more than 31.
    Shift,
    /// An `assert(..)` statement was false.
    Assertion,
    /// An `error(..)` statement was reached.
    Raised,
    /// `readint()` found no number.
    InputEnd,
}

/// How a run ends.
#[derive(Clone, Copy, Debug, PartialEq, Eq)]
pub enum Ending {
    /// `main` returned this word.
    Returned(Word),
    /// A contract, an invariant or an access was false at this site.
    Stop(Site),
    /// C0's own fault, at this site.
    Fault(TrapKind, Site),
    /// A step was due and none was left.
    StepsUsed,
}

/// A branch of the code, or a choice of a formula at one site.
#[derive(Clone, Copy, Debug, PartialEq, Eq)]
pub struct Decision {
    /// The number of the function in which the decision stands.
    pub function: u32,
    /// The number of the decision within its function, from 0.
    pub number: u32,
}

/// What is checked at a site: the whole formula, or one part of it.
#[derive(Clone, Copy, Debug, PartialEq, Eq)]
pub enum Part {
    /// The value conjunct of this number is true, and its reads are owned.
    Value(u32),
    /// The cell of the `acc` of this number exists and is owned.
    Reach(u32),
    /// The cell of an access is owned.
    Access,
    /// The whole formula holds.
    Whole,
    /// The permissions of the formula do not overlap.
    Separate,
}
