//! Operators, their bytes and how tightly they bind.

ghost use Rattle.std.specs.Prelude.{◌≡◌, ◌≤◌, ◌++◌, Bool, OnOk};
ghost use Rattle.c0_lex.specs.Words.{symbol_bytes};
ghost use Rattle.c0_grammar.specs.Written.{unary_symbol, operator_symbol};
ghost use Rattle.c0_grammar.specs.Allowed.{rank};
ghost use Rattle.c0_grammar.specs.Texts.{update_symbol, step_symbol};
ghost use Rattle.c0_layout.specs.Layout.{spaced, is_minus, unary_gap};

use crate::words::push;
use parsed_tree::{Operator, StepOperator, UnaryOperator, UpdateOperator};
use std::alloc::AllocError;

/// How loosely an operator binds, from 0.
pub fn rank_of(operator: Operator) -> u32
    ensures rank { result ≡ rank operator }
    ensures low { result ≤ 9 }
{
    match operator {
        Operator::Mul => 0,
        Operator::Div => 0,
        Operator::Rem => 0,
        Operator::Add => 1,
        Operator::Sub => 1,
        Operator::Shl => 2,
        Operator::Shr => 2,
        Operator::Less => 3,
        Operator::LessEq => 3,
        Operator::Greater => 3,
        Operator::GreaterEq => 3,
        Operator::Equal => 4,
        Operator::NotEqual => 4,
        Operator::And => 5,
        Operator::Xor => 6,
        Operator::Or => 7,
        Operator::Both => 8,
        Operator::Either => 9,
    }
}

/// A unary operator.
pub fn unary_bytes(operator: UnaryOperator) -> &'static [u8]
    ensures { result.now ≡ symbol_bytes (unary_symbol operator) }
{
    match operator {
        UnaryOperator::Negate => b"-",
        UnaryOperator::Not => b"~",
        UnaryOperator::Flip => b"!",
    }
}

/// Whether it is the unary `-`.
pub fn is_minus(operator: UnaryOperator) -> bool
    ensures { result ≡ is_minus operator }
{
    matches!(operator, UnaryOperator::Negate)
}

/// A space between two unary `-`.
pub fn push_gap(
    text: &mut Vec<u8>,
    operator: UnaryOperator,
    before_minus: bool,
) -> Result<(), AllocError>
    ensures { OnOk result (text.new.items ≡ text.old.items ++ unary_gap operator before_minus) }
{
    match operator {
        UnaryOperator::Negate => {
            if before_minus {
                push(text, b" ")
            } else {
                Ok(())
            }
        }
        UnaryOperator::Not => Ok(()),
        UnaryOperator::Flip => Ok(()),
    }
}

/// An operator with its spaces.
pub fn operator_bytes(operator: Operator) -> &'static [u8]
    ensures { result.now ≡ spaced (operator_symbol operator) }
{
    match operator {
        Operator::Mul => b" * ",
        Operator::Div => b" / ",
        Operator::Rem => b" % ",
        Operator::Add => b" + ",
        Operator::Sub => b" - ",
        Operator::Shl => b" << ",
        Operator::Shr => b" >> ",
        Operator::Less => b" < ",
        Operator::LessEq => b" <= ",
        Operator::Greater => b" > ",
        Operator::GreaterEq => b" >= ",
        Operator::Equal => b" == ",
        Operator::NotEqual => b" != ",
        Operator::And => b" & ",
        Operator::Xor => b" ^ ",
        Operator::Or => b" | ",
        Operator::Both => b" && ",
        Operator::Either => b" || ",
    }
}

/// The operator of an assignment, with its spaces.
pub fn update_bytes(operator: Option<UpdateOperator>) -> &'static [u8]
    ensures { result.now ≡ spaced (update_symbol operator) }
{
    match operator {
        None => b" = ",
        Some(UpdateOperator::Add) => b" += ",
        Some(UpdateOperator::Sub) => b" -= ",
        Some(UpdateOperator::Mul) => b" *= ",
        Some(UpdateOperator::Div) => b" /= ",
        Some(UpdateOperator::Rem) => b" %= ",
        Some(UpdateOperator::And) => b" &= ",
        Some(UpdateOperator::Xor) => b" ^= ",
        Some(UpdateOperator::Or) => b" |= ",
        Some(UpdateOperator::Shl) => b" <<= ",
        Some(UpdateOperator::Shr) => b" >>= ",
    }
}

/// The operator of a step.
pub fn step_bytes(operator: StepOperator) -> &'static [u8]
    ensures { result.now ≡ symbol_bytes (step_symbol operator) }
{
    match operator {
        StepOperator::Increment => b"++",
        StepOperator::Decrement => b"--",
    }
}
