//! Modes of expressions, and what symbols operate, assign or step.

ghost use Rattle.std.specs.Prelude.{◌≡◌, List, ℕ};
ghost use Rattle.c0_grammar.specs.Allowed.{rank, is_code, is_conjunct, has_calls, inside, right_of, has};
ghost use Rattle.c0_grammar.specs.Plan.{operator_at, operator_of, of_rank, update_at, update_of, step_at, step_of};
ghost use Rattle.c0_cursor.specs.Seen.{mode_view};
ghost use Rattle.c0_grammar.specs.Seen.{what_of};

use c0_lex::{Symbol, TokenKind};
use parsed_tree::{Operator, StepOperator, UpdateOperator};

/// Where an expression stands: in the code, as a conjunct of a formula, or as a value inside one.
#[derive(Clone, Copy, Debug, PartialEq, Eq)]
pub enum Mode {
    Code,
    Conjunct,
    Value,
}

impl Mode {
    // Behind a unary operator, and as an argument of an instance.
    pub fn inside(self) -> Mode
        ensures { mode_view result ≡ inside (mode_view self) }
    {
        match self {
            Mode::Code => Mode::Code,
            _ => Mode::Value,
        }
    }

    // To the right of an operator.
    pub fn right_of(self, operator: Operator) -> Mode
        ensures { mode_view result ≡ right_of (mode_view self) operator }
    {
        match (self, operator) {
            (Mode::Conjunct, Operator::Both | Operator::Either) => Mode::Conjunct,
            _ => self.inside(),
        }
    }

    // Whether this operator may stand.
    pub fn has(self, operator: Operator) -> bool
        ensures { result ≡ has (mode_view self) operator }
    {
        match (self, operator) {
            (Mode::Code, _) => true,
            (_, Operator::Div | Operator::Rem | Operator::Shl | Operator::Shr) => false,
            _ => true,
        }
    }

    // Whether calls or instances may stand.
    pub fn has_calls(self) -> bool
        ensures { result ≡ has_calls (mode_view self) }
    {
        !matches!(self, Mode::Value)
    }

    pub fn is_code(self) -> bool
        ensures { result ≡ is_code (mode_view self) }
    {
        matches!(self, Mode::Code)
    }

    pub fn is_conjunct(self) -> bool
        ensures { result ≡ is_conjunct (mode_view self) }
    {
        matches!(self, Mode::Conjunct)
    }
}

// The operator, if it is of this rank. The rank 0 binds most.
pub fn operator_of_rank(rank: u32, kind: TokenKind) -> Option<Operator>
    ensures { (bytes : List ℕ) → result ≡ of_rank rank (operator_at (what_of kind bytes)) }
{
    let operator = operator_at(kind)?;
    if rank_of(operator) == rank {
        Some(operator)
    } else {
        None
    }
}

fn operator_at(kind: TokenKind) -> Option<Operator>
    ensures { (bytes : List ℕ) → result ≡ operator_at (what_of kind bytes) }
{
    match kind {
        TokenKind::Symbol(symbol) => operator_of(symbol),
        _ => None,
    }
}

fn operator_of(symbol: Symbol) -> Option<Operator>
    ensures { result ≡ operator_of symbol }
{
    match symbol {
        Symbol::Star => Some(Operator::Mul),
        Symbol::Slash => Some(Operator::Div),
        Symbol::Percent => Some(Operator::Rem),
        Symbol::Plus => Some(Operator::Add),
        Symbol::Minus => Some(Operator::Sub),
        Symbol::ShiftLeft => Some(Operator::Shl),
        Symbol::ShiftRight => Some(Operator::Shr),
        Symbol::Less => Some(Operator::Less),
        Symbol::LessEq => Some(Operator::LessEq),
        Symbol::Greater => Some(Operator::Greater),
        Symbol::GreaterEq => Some(Operator::GreaterEq),
        Symbol::Equal => Some(Operator::Equal),
        Symbol::NotEqual => Some(Operator::NotEqual),
        Symbol::And => Some(Operator::And),
        Symbol::Xor => Some(Operator::Xor),
        Symbol::Or => Some(Operator::Or),
        Symbol::Both => Some(Operator::Both),
        Symbol::Either => Some(Operator::Either),
        _ => None,
    }
}

fn rank_of(operator: Operator) -> u32
    ensures { result ≡ rank operator }
{
    match operator {
        Operator::Mul | Operator::Div | Operator::Rem => 0,
        Operator::Add | Operator::Sub => 1,
        Operator::Shl | Operator::Shr => 2,
        Operator::Less | Operator::LessEq | Operator::Greater | Operator::GreaterEq => 3,
        Operator::Equal | Operator::NotEqual => 4,
        Operator::And => 5,
        Operator::Xor => 6,
        Operator::Or => 7,
        Operator::Both => 8,
        Operator::Either => 9,
    }
}

// What assigns: `=` alone, or with an operator.
pub fn update_at(kind: TokenKind) -> Option<Option<UpdateOperator>>
    ensures { (bytes : List ℕ) → result ≡ update_at (what_of kind bytes) }
{
    match kind {
        TokenKind::Symbol(symbol) => update_of(symbol),
        _ => None,
    }
}

fn update_of(symbol: Symbol) -> Option<Option<UpdateOperator>>
    ensures { result ≡ update_of symbol }
{
    match symbol {
        Symbol::Assign => Some(None),
        Symbol::AddAssign => Some(Some(UpdateOperator::Add)),
        Symbol::SubAssign => Some(Some(UpdateOperator::Sub)),
        Symbol::MulAssign => Some(Some(UpdateOperator::Mul)),
        Symbol::DivAssign => Some(Some(UpdateOperator::Div)),
        Symbol::RemAssign => Some(Some(UpdateOperator::Rem)),
        Symbol::AndAssign => Some(Some(UpdateOperator::And)),
        Symbol::XorAssign => Some(Some(UpdateOperator::Xor)),
        Symbol::OrAssign => Some(Some(UpdateOperator::Or)),
        Symbol::ShlAssign => Some(Some(UpdateOperator::Shl)),
        Symbol::ShrAssign => Some(Some(UpdateOperator::Shr)),
        _ => None,
    }
}

// `++` or `--`.
pub fn step_at(kind: TokenKind) -> Option<StepOperator>
    ensures { (bytes : List ℕ) → result ≡ step_at (what_of kind bytes) }
{
    match kind {
        TokenKind::Symbol(symbol) => step_of(symbol),
        _ => None,
    }
}

fn step_of(symbol: Symbol) -> Option<StepOperator>
    ensures { result ≡ step_of symbol }
{
    match symbol {
        Symbol::Increment => Some(StepOperator::Increment),
        Symbol::Decrement => Some(StepOperator::Decrement),
        _ => None,
    }
}
