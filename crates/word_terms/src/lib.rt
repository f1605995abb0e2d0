//! Terms over words and truths, each kept once, with what they are worth and what they weigh.
#![tactic(auto)]

mod evaluate;
mod node;
mod terms;
mod valuation;
mod weight;

pub use node::{Node, Op1, Op2, Sort, TermId};
pub use terms::Terms;
pub use valuation::{Valuation, Words};
