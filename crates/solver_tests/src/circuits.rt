//! A test of `word_blast`: which bits of an assignment a symbol's word is made of.

use gc0_base::Word;
use std::test::Fail;
use word_blast::{blast, valuation_of};
use word_terms::{Op2, Sort, Terms};

// Variable 0 is fixed true, so the bits of the first symbol are the variables from 1 on.
#[test]
fn bits_of_a_symbol(rt: HostRuntime) -> Result<(), Fail> {
    let mut terms = Terms::new(rt.alloc());
    let x = terms.symbol(Sort::Word32)?;
    let three = terms.constant(Word(3))?;
    let below = terms.binary(Op2::Less, x, three)?;
    let query = blast(rt.alloc(), &terms, &[below], &[]).expect(&rt, "a small query");
    let assignment = [true, false, true, false];
    let valuation = valuation_of(rt.alloc(), &query, &assignment)?;
    let words = valuation.words.into_vec();
    assert_eq!(rt; words.len(), 1);
    assert_eq!(rt; words[0].0, 2);
    Ok(())
}
