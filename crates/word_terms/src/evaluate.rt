//! What terms are worth under a valuation.

ghost use Rattle.std.specs.Prelude.{◌≡◌, ◌<◌, ◌≤◌, length, map};
ghost use Rattle.word_terms.specs.Terms.{truth_word, unary_value, binary_value};
ghost use Rattle.word_terms.specs.Tables.{terms_of};
ghost use Rattle.word_terms.specs.Worth.{node_worth, HasParts, worths};

use crate::node::{Node, Op1, Op2};
use crate::terms::Terms;
use crate::valuation::Valuation;
use gc0_base::Word;

impl Terms {
    /// Writes what each term is worth under the valuation, at the place of the term's
    /// number: a word, which for a truth is 0 or 1. It takes no memory.
    pub fn evaluate(&self, valuation: &Valuation, out: &mut [Word])
        requires places { length out.old ≡ length self.now.nodes }
        requires words { length valuation.now.words ≡ length self.now.sorts }
        ensures { out.new ≡ worths valuation.now.words (terms_of self.now.nodes) }
    {
        let words = valuation.words.as_slice();
        for (place, node) in self.nodes().iter().enumerate() {
            let word = worth(*node, words, out);
            out[place] = word;
        }
    }
}

// What a node is worth, where its parts' worth stands at their numbers.
fn worth(node: Node, words: &[Word], done: &[Word]) -> Word
    requires { HasParts (length words.now) (length done.now) node }
    ensures { result.0 ≡ node_worth words.now done.now node }
{
    match node {
        Node::Symbol(number, _) => words[number as usize],
        Node::Constant(word) => word,
        Node::Truth(truth) => truth_word(truth),
        Node::Unary(op, part) => of_one(op, done[part.0 as usize]),
        Node::Binary(op, left, right) => of_two(op, done[left.0 as usize], done[right.0 as usize]),
        Node::Choose(condition, yes, no) => {
            if done[condition.0 as usize].0 == 0 {
                done[no.0 as usize]
            } else {
                done[yes.0 as usize]
            }
        }
    }
}

fn truth_word(truth: bool) -> Word
    ensures { result.0 ≡ truth_word truth }
{
    Word(u32::from(truth))
}

fn of_one(op: Op1, part: Word) -> Word
    ensures { result.0 ≡ unary_value op part.0 }
{
    match op {
        Op1::Neg => part.neg(),
        Op1::Not => part.not(),
        Op1::Flip => truth_word(part.0 == 0),
    }
}

fn of_two(op: Op2, left: Word, right: Word) -> Word
    ensures { result.0 ≡ binary_value op left.0 right.0 }
{
    match op {
        Op2::Add => left.add(right),
        Op2::Sub => left.sub(right),
        Op2::Mul => left.mul(right),
        Op2::Div => quotient(left, right),
        Op2::Rem => remainder(left, right),
        Op2::And => left.and(right),
        Op2::Or => left.or(right),
        Op2::Xor => left.xor(right),
        Op2::Shl => shifted_left(left, right),
        Op2::Shr => shifted_right(left, right),
        Op2::Less => truth_word(left.less(right)),
        Op2::Equal => truth_word(left.0 == right.0),
        Op2::Both => truth_word(left.0 != 0 && right.0 != 0),
        Op2::Either => truth_word(left.0 != 0 || right.0 != 0),
    }
}

// The quotient, which is 0 by 0, and the least integer itself by -1.
fn quotient(left: Word, right: Word) -> Word
    ensures { result.0 ≡ binary_value Op2.Div left.0 right.0 }
{
    if right.0 == 0 {
        return Word(0);
    }
    match left.div(right) {
        Some(word) => word,
        None => left,
    }
}

// The remainder, which is 0 by 0, and 0 of the least integer by -1.
fn remainder(left: Word, right: Word) -> Word
    ensures { result.0 ≡ binary_value Op2.Rem left.0 right.0 }
{
    if right.0 == 0 {
        return Word(0);
    }
    match left.rem(right) {
        Some(word) => word,
        None => Word(0),
    }
}

// The bits moved up by the amount modulo 32.
fn shifted_left(word: Word, amount: Word) -> Word
    ensures { result.0 ≡ binary_value Op2.Shl word.0 amount.0 }
{
    match word.shl(Word(amount.0 % 32)) {
        Some(moved) => moved,
        None => word,
    }
}

// The bits moved down by the amount modulo 32, with copies of the sign above them.
fn shifted_right(word: Word, amount: Word) -> Word
    ensures { result.0 ≡ binary_value Op2.Shr word.0 amount.0 }
{
    match word.shr(Word(amount.0 % 32)) {
        Some(moved) => moved,
        None => word,
    }
}

#[cfg(test)]
mod tests;
