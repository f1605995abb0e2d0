//! The nodes of terms.

use std::hash::{Hash, Hasher};

/// What a term stands for: a word of 32 bits, or a truth.
#[derive(Clone, Copy, Debug, PartialEq, Eq, Hash)]
pub enum Sort {
    Word32,
    Truth,
}

/// An operator of one part: `Neg` and `Not` of a word, `Flip` of a truth.
#[derive(Clone, Copy, Debug, PartialEq, Eq, Hash)]
pub enum Op1 {
    Neg,
    Not,
    Flip,
}

/// An operator of two parts. `Less` and `Equal` give a truth, `Both` and `Either` join
/// two truths, and the others give a word of two words. `Equal` compares two of one sort.
#[derive(Clone, Copy, Debug, PartialEq, Eq, Hash)]
pub enum Op2 {
    Add,
    Sub,
    Mul,
    Div,
    Rem,
    And,
    Or,
    Xor,
    Shl,
    Shr,
    Less,
    Equal,
    Both,
    Either,
}

/// The number of a term in its table, counted from 0 as the terms are made.
#[derive(Clone, Copy, Debug, PartialEq, Eq, Hash)]
pub struct TermId(pub u32);

/// A term's operator with its parts, or what the term is if it has none. A symbol has a
/// number of its own, counted from 0.
#[derive(Clone, Copy, Debug, PartialEq, Eq)]
pub enum Node {
    Symbol(u32, Sort),
    Constant(gc0_base::Word),
    Truth(bool),
    Unary(Op1, TermId),
    Binary(Op2, TermId, TermId),
    Choose(TermId, TermId, TermId),
}

// The numbers of a node are hashed, and not its operator: so few nodes share their parts that an
// index stays one.
impl Hash for Node {
    ghost use Rattle.std.specs.Cmp.Rules.{hashing};
    ghost use Rattle.std.proofs.Common.{rules};
    ghost use Rattle.word_terms.specs.Feeding.{fed_node};

    ghost hash_input = { λ node. fed_node node };

    ghost respects_eq = { Prim.search (hashing, rules) };

    fn hash<H: Hasher>(&self, state: &mut H) {
        match self {
            Node::Symbol(number, _) => {
                state.write_u8(0);
                number.hash(state);
            }
            Node::Constant(word) => {
                state.write_u8(1);
                word.0.hash(state);
            }
            Node::Truth(truth) => {
                state.write_u8(2);
                truth.hash(state);
            }
            Node::Unary(_, part) => {
                state.write_u8(3);
                part.0.hash(state);
            }
            Node::Binary(_, left, right) => {
                state.write_u8(4);
                left.0.hash(state);
                right.0.hash(state);
            }
            Node::Choose(test, yes, no) => {
                state.write_u8(5);
                test.0.hash(state);
                yes.0.hash(state);
                no.0.hash(state);
            }
        }
    }
}
