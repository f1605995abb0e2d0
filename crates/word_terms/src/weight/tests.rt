//! Tests of the weight of terms.

ghost use Rattle.std.specs.Prelude.{◌≡◌, ◌<◌, length, IfOk};
ghost use Rattle.word_terms.specs.declared.node.Sort.TheVariants.{Word32};
ghost use Rattle.word_terms.specs.Terms.{sort_of};
ghost use Rattle.word_terms.specs.Tables.{term};

use super::*;
use crate::node::Sort;
use gc0_base::Word;
use std::test::Fail;

// The term of `(x & 1) + (y & 1) <= 2`: two times 32 for `&`, 160 for `+` and 160 for `<`.
#[test]
fn weight_of_a_bounded_sum(rt: HostRuntime) -> Result<(), Fail> {
    let mut terms = Terms::new(rt.alloc());
    let sum = sum_of_low_bits(&mut terms)?;
    let at_most = at_most_two(&mut terms, sum)?;
    assert_eq!(rt; terms.gates(&[at_most])?, 384);
    Ok(())
}

fn sum_of_low_bits(terms: &mut Terms) -> Result<TermId, AllocError>
    ensures known { IfOk result (λ t. t.0 < length terms.new.nodes) }
    ensures word { IfOk result (λ t. sort_of (term terms.new.nodes t.0) ≡ Word32) }
{
    let x = terms.symbol(Sort::Word32)?;
    let y = terms.symbol(Sort::Word32)?;
    let one = terms.constant(Word(1))?;
    let low_x = terms.binary(Op2::And, x, one)?;
    let low_y = terms.binary(Op2::And, y, one)?;
    terms.binary(Op2::Add, low_x, low_y)
}

fn at_most_two(terms: &mut Terms, sum: TermId) -> Result<TermId, AllocError>
    requires known { sum.0 < length terms.old.nodes }
    requires word { sort_of (term terms.old.nodes sum.0) ≡ Word32 }
    ensures known { IfOk result (λ t. t.0 < length terms.new.nodes) }
{
    let two = terms.constant(Word(2))?;
    let above = terms.binary(Op2::Less, two, sum)?;
    terms.unary(Op1::Flip, above)
}
