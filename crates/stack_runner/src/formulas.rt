//! Whether a formula holds of words. No heap exists yet, so a read has no value.

ghost use Rattle.std.specs.Prelude.{◌≡◌, ◌++◌, [], List, is_some, length, slice_index, ◌-◌};
ghost use Rattle.std.specs.Option.{option_map};
ghost use Rattle.gc0_tree.specs.Tree.{Predicate};
ghost use Rattle.gc0_tree.specs.Views.{expr_view, formula_view};
ghost use Rattle.c0_meaning.specs.Operators.{unary_word, binary_word};
ghost use Rattle.c0_meaning.specs.Holds.{value_in, holds};
ghost use Rattle.stack_code.specs.Built.{IsBuiltFormula};

use crate::instrs::truth;
use gc0_base::Word;
use gc0_tree::{Conjunct, Expr, ExprForm, ExprOp, Formula, UnaryOp};

/// The words that a formula speaks of, in two pieces.
#[derive(Clone, Copy)]
pub(crate) struct Given<'s> {
    /// The first words.
    pub(crate) front: &'s [u32],
    /// The words behind them.
    pub(crate) back: &'s [u32],
}

impl Given<'_> {
    // The word of this number, and 0 where there is none.
    fn at(&self, number: usize) -> u32
        ensures { result ≡ slice_index (self.now.front.now ++ self.now.back.now) number }
    {
        if number < self.front.len() {
            self.front[number]
        } else if number - self.front.len() < self.back.len() {
            self.back[number - self.front.len()]
        } else {
            0
        }
    }

    // The last word, and 0 where there is none.
    fn last(&self) -> u32
        ensures { result ≡ slice_index (self.now.front.now ++ self.now.back.now) (length (self.now.front.now ++ self.now.back.now) - 1) }
    {
        if !self.back.is_empty() {
            self.back[self.back.len() - 1]
        } else if !self.front.is_empty() {
            self.front[self.front.len() - 1]
        } else {
            0
        }
    }
}

fn unary(operator: UnaryOp, x: u32) -> u32
    ensures { result ≡ unary_word operator x }
{
    match operator {
        UnaryOp::Neg => Word(x).neg().0,
        UnaryOp::Not => Word(x).not().0,
        UnaryOp::Flip => truth(x == 0),
    }
}

fn word_of(word: Option<Word>) -> Option<u32>
    ensures { result ≡ option_map (λ w. w.0) word }
{
    match word {
        Some(word) => Some(word.0),
        None => None,
    }
}

// The value of an operator, where it has one.
fn binary(operator: ExprOp, x: u32, y: u32) -> Option<u32>
    ensures { result ≡ binary_word operator x y }
{
    let left = Word(x);
    let right = Word(y);
    match operator {
        ExprOp::Add => Some(left.add(right).0),
        ExprOp::Sub => Some(left.sub(right).0),
        ExprOp::Mul => Some(left.mul(right).0),
        ExprOp::Div => word_of(left.div(right)),
        ExprOp::Rem => word_of(left.rem(right)),
        ExprOp::Shl => word_of(left.shl(right)),
        ExprOp::Shr => word_of(left.shr(right)),
        ExprOp::And => Some(left.and(right).0),
        ExprOp::Or => Some(left.or(right).0),
        ExprOp::Xor => Some(left.xor(right).0),
        ExprOp::Less => Some(truth(left.less(right))),
        ExprOp::LessEq => Some(truth(!right.less(left))),
        ExprOp::Greater => Some(truth(right.less(left))),
        ExprOp::GreaterEq => Some(truth(!left.less(right))),
        ExprOp::Equal => Some(truth(x == y)),
        ExprOp::NotEqual => Some(truth(!(x == y))),
    }
}

// The value of an expression, where it has one.
fn value(expr: &Expr, given: Given<'_>) -> Option<u32>
    ensures { value_in [] [] (given.entry.front.now ++ given.entry.back.now) (expr_view expr.now) ≡ result }
{
    match &expr.form {
        ExprForm::Number(word) => Some(word.0),
        ExprForm::Truth(holds) => Some(truth(*holds)),
        ExprForm::Null => Some(0),
        ExprForm::Local(number) => Some(given.at(*number as usize)),
        ExprForm::ResultValue => Some(given.last()),
        ExprForm::Unary(operator, operand) => {
            let word = value(operand.get(), given)?;
            Some(unary(*operator, word))
        }
        ExprForm::Binary(operator, left, right) => {
            let x = value(left.get(), given)?;
            let y = value(right.get(), given)?;
            binary(*operator, x, y)
        }
        ExprForm::Both(left, right) => {
            if value(left.get(), given)? == 0 {
                return Some(0);
            }
            value(right.get(), given)
        }
        ExprForm::Either(left, right) => {
            let word = value(left.get(), given)?;
            if word == 0 {
                return value(right.get(), given);
            }
            Some(word)
        }
        ExprForm::Choose(condition, yes, no) => {
            if value(condition.get(), given)? == 0 {
                return value(no.get(), given);
            }
            value(yes.get(), given)
        }
        ExprForm::Read { base, .. } => {
            let _pointer = value(base.get(), given)?;
            None
        }
        ExprForm::Call { .. } => None,
        ExprForm::Library { .. } => None,
        ExprForm::Alloc(_) => None,
    }
}

/// Whether a formula of values holds of the words.
pub(crate) fn formula_holds(formula: &Formula, given: Given<'_>) -> bool
    requires { IsBuiltFormula (formula_view formula.now) }
    ensures { (predicates : List Predicate) → is_some (holds predicates (formula_view formula.now) (given.entry.front.now ++ given.entry.back.now) [] []) ≡ result }
{
    for part in formula.parts.as_slice() {
        let Conjunct::Value(expr) = part else {
            return false;
        };
        match value(expr, given) {
            None | Some(0) => return false,
            Some(_) => {}
        }
    }
    true
}
