//! The types of values, and what the operators take and give.

ghost use Rattle.std.specs.Prelude.{◌≡◌, Some, None, if◌then◌else◌};
ghost use Rattle.std.specs.Option.{option_map};
ghost use Rattle.c0_names.specs.Types.{same_base, same_type, is_int, is_truth, is_void, is_pointer, struct_in, struct_behind, pointed, is_held, fits, common, unary_type, of_ints, of_truths, of_equals, binary_type, choice_type, prints_text, takes_to, library_signature, library};

use gc0_tree::LibraryCall;
use parsed_tree::{Operator, UnaryOperator};

/// A type without its `*`.
#[derive(Clone, Copy, Debug, PartialEq, Eq)]
pub enum BaseType {
    Int,
    Bool,
    /// The struct of this number.
    Struct(usize),
}

/// The type of an expression.
#[derive(Clone, Copy, Debug, PartialEq, Eq)]
pub enum ValueType {
    /// A type that a text can write: a base, and how many `*` follow it.
    Written(BaseType, u64),
    /// What `NULL` alone has: it fits every pointer.
    Null,
    /// What the call of a function without a result has: no value.
    Void,
    /// What a string literal has. No expression has it.
    Text,
}

/// The type `int`.
pub const INT: ValueType = ValueType::Written(BaseType::Int, 0);

/// The type `bool`.
pub const BOOL: ValueType = ValueType::Written(BaseType::Bool, 0);

impl BaseType {
    fn is(self, other: BaseType) -> bool
        ensures { result ≡ same_base self other }
    {
        match (self, other) {
            (BaseType::Int, BaseType::Int) => true,
            (BaseType::Bool, BaseType::Bool) => true,
            (BaseType::Struct(m), BaseType::Struct(n)) => m == n,
            _ => false,
        }
    }

    fn number(self) -> Option<usize>
        ensures { result ≡ struct_in self }
    {
        match self {
            BaseType::Int => None,
            BaseType::Bool => None,
            BaseType::Struct(number) => Some(number),
        }
    }
}

impl ValueType {
    /// Whether two written types, or two of no value, are the same.
    pub fn is(self, other: ValueType) -> bool
        ensures { result ≡ same_type self other }
    {
        match (self, other) {
            (ValueType::Written(b, m), ValueType::Written(c, n)) => b.is(c) && m == n,
            (ValueType::Void, ValueType::Void) => true,
            _ => false,
        }
    }

    pub fn is_int(self) -> bool
        ensures { result ≡ is_int self }
    {
        self.is(INT)
    }

    pub fn is_truth(self) -> bool
        ensures { result ≡ is_truth self }
    {
        self.is(BOOL)
    }

    pub fn is_void(self) -> bool
        ensures { result ≡ is_void self }
    {
        self.is(ValueType::Void)
    }

    fn is_pointer(self) -> bool
        ensures { result ≡ is_pointer self }
    {
        match self {
            ValueType::Written(_, stars) => 0 < stars,
            ValueType::Null => true,
            ValueType::Void => false,
            ValueType::Text => false,
        }
    }

    /// The struct that such a type is, where so many `*` make it one.
    pub fn struct_behind(self, stars: u64) -> Option<usize>
        ensures { result ≡ struct_behind stars self }
    {
        match self {
            ValueType::Written(base, n) => { if n == stars { base.number() } else { None } }
            ValueType::Null => None,
            ValueType::Void => None,
            ValueType::Text => None,
        }
    }

    /// The struct to which a pointer points.
    pub fn pointed(self) -> Option<usize>
        ensures { result ≡ pointed self }
    {
        self.struct_behind(1)
    }

    /// Whether a local, a field, a parameter or a result may be of this type.
    pub fn is_held(self) -> bool
        ensures { result ≡ is_held self }
    {
        self.is_int() || self.is_truth() || self.pointed().is_some()
    }

    /// Whether a value of the type `given` may stand where this type is due.
    pub fn fits(self, given: ValueType) -> bool
        ensures { result ≡ fits self given }
    {
        match given {
            ValueType::Null => self.is_pointer(),
            ValueType::Written(_, _) => self.is(given),
            ValueType::Void => false,
            ValueType::Text => false,
        }
    }

    // The common type of two operands of `==` or of two branches.
    fn common(self, other: ValueType) -> Option<ValueType>
        ensures { result ≡ common self other }
    {
        match (self, other) {
            (ValueType::Null, _) => given_if(other.is_pointer(), other),
            (ValueType::Written(_, _), ValueType::Written(_, _)) => {
                given_if(self.is_held() && self.is(other), self)
            }
            (ValueType::Written(_, _), ValueType::Null) => given_if(self.is_pointer(), self),
            (ValueType::Written(_, _), _) => None,
            (ValueType::Void, _) => None,
            (ValueType::Text, _) => None,
        }
    }
}

/// A type, where this holds.
pub fn given_if(holds: bool, given: ValueType) -> Option<ValueType>
    ensures { result ≡ (if holds then Some given else None) }
{
    if holds { Some(given) } else { None }
}

/// What an operator of one operand gives, where it takes the operand.
pub fn unary_type(operator: UnaryOperator, operand: ValueType) -> Option<ValueType>
    ensures { result ≡ unary_type operator operand }
{
    match operator {
        UnaryOperator::Negate => given_if(operand.is_int(), INT),
        UnaryOperator::Not => given_if(operand.is_int(), INT),
        UnaryOperator::Flip => given_if(operand.is_truth(), BOOL),
    }
}

fn of_ints(made: ValueType, a: ValueType, b: ValueType) -> Option<ValueType>
    ensures { result ≡ of_ints made a b }
{
    given_if(a.is_int() && b.is_int(), made)
}

fn of_truths(a: ValueType, b: ValueType) -> Option<ValueType>
    ensures { result ≡ of_truths a b }
{
    given_if(a.is_truth() && b.is_truth(), BOOL)
}

fn of_equals(a: ValueType, b: ValueType) -> Option<ValueType>
    ensures { result ≡ of_equals a b }
{
    given_if(a.common(b).is_some(), BOOL)
}

/// What an operator of two operands gives, where it takes them.
pub fn binary_type(operator: Operator, a: ValueType, b: ValueType) -> Option<ValueType>
    ensures { result ≡ binary_type operator a b }
{
    match operator {
        Operator::Mul => of_ints(INT, a, b),
        Operator::Div => of_ints(INT, a, b),
        Operator::Rem => of_ints(INT, a, b),
        Operator::Add => of_ints(INT, a, b),
        Operator::Sub => of_ints(INT, a, b),
        Operator::Shl => of_ints(INT, a, b),
        Operator::Shr => of_ints(INT, a, b),
        Operator::Less => of_ints(BOOL, a, b),
        Operator::LessEq => of_ints(BOOL, a, b),
        Operator::Greater => of_ints(BOOL, a, b),
        Operator::GreaterEq => of_ints(BOOL, a, b),
        Operator::Equal => of_equals(a, b),
        Operator::NotEqual => of_equals(a, b),
        Operator::And => of_ints(INT, a, b),
        Operator::Xor => of_ints(INT, a, b),
        Operator::Or => of_ints(INT, a, b),
        Operator::Both => of_truths(a, b),
        Operator::Either => of_truths(a, b),
    }
}

/// What a choice of two branches gives, where it takes the condition and the branches.
pub fn choice_type(condition: ValueType, a: ValueType, b: ValueType) -> Option<ValueType>
    ensures { result ≡ choice_type condition a b }
{
    if condition.is_truth() {
        a.common(b)
    } else {
        None
    }
}

/// Whether this is the name of a library call that takes a string.
pub fn prints_text(name: &[u8]) -> bool
    ensures { result ≡ prints_text name.now }
{
    match LibraryCall::named(name) {
        Some(call) => call.takes_text(),
        None => false,
    }
}

// What a library call takes, and what it gives.
fn library_signature(call: LibraryCall) -> (&'static [ValueType], ValueType)
    ensures { takes_to result.0.now result.1 ≡ library_signature call }
{
    match call {
        LibraryCall::PrintInt => (&[INT], ValueType::Void),
        LibraryCall::PrintBool => (&[BOOL], ValueType::Void),
        LibraryCall::Print => (&[ValueType::Text], ValueType::Void),
        LibraryCall::PrintLine => (&[ValueType::Text], ValueType::Void),
        LibraryCall::ReadInt => (&[], INT),
        LibraryCall::MoreInt => (&[], BOOL),
    }
}

/// The types of the parameters and of the result of a library call.
pub fn library(name: &[u8]) -> Option<(&'static [ValueType], ValueType)>
    ensures { option_map (λ p. takes_to p.0.now p.1) result ≡ library name.now }
{
    match LibraryCall::named(name) {
        Some(call) => Some(library_signature(call)),
        None => None,
    }
}
