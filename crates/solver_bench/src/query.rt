//! A query of a family.

ghost use Rattle.std.specs.Prelude.{◌≡◌, ◌+◌, [], ◌∷◌, length, map, All, IfOk, OnOk};
ghost use Rattle.word_terms.specs.declared.node.Sort.TheVariants.{Word32, Truth};
ghost use Rattle.word_terms.specs.Tables.{term};
ghost use Rattle.word_terms.specs.Laws.{Keeps};
ghost use Rattle.solver_bench.specs.Families.{chain, successor, pair_term, pairs, roots, IsSorted, IsChained, IsKnown};

use crate::family::{Family, Links, Pair};
use gc0_base::Word;
use std::alloc::AllocError;
use word_terms::{Op1, Op2, Sort, TermId, Terms};

/// The roots of a family's query of a size, in a table without terms.
pub fn roots_of(terms: &mut Terms, family: Family, size: u32) -> Result<Vec<TermId>, AllocError>
    requires sorted { IsSorted family }
    requires blank { terms.old.sorts ≡ [] }
    ensures truths { IfOk result (λ rs. All (λ r. IsKnown terms.new.nodes Truth r.0) rs.items) }
    ensures roots { IfOk result (λ rs. map (λ r. term terms.new.nodes r.0) rs.items ≡ roots family size) }
{
    match family {
        Family::Words(links) => words(terms, links, size),
        Family::Truths(op) => {
            let whole = chain(terms, Links::Same(op), Sort::Truth, size)?;
            single(terms, whole)
        }
        Family::Pairs(pair) => pairs(terms, pair, size),
    }
}

// `x0 op x1 op .. == y`
fn words(terms: &mut Terms, links: Links, size: u32) -> Result<Vec<TermId>, AllocError>
    requires sorted { IsChained links Word32 }
    requires blank { terms.old.sorts ≡ [] }
    ensures truths { IfOk result (λ rs. All (λ r. IsKnown terms.new.nodes Truth r.0) rs.items) }
    ensures roots { IfOk result (λ rs. map (λ r. term terms.new.nodes r.0) rs.items ≡ roots (Family.Words links) size) }
{
    let whole = chain(terms, links, Sort::Word32, size)?;
    let last = terms.symbol(Sort::Word32)?;
    let root = terms.binary(Op2::Equal, whole, last)?;
    single(terms, root)
}

// A list of one root.
fn single(terms: &Terms, root: TermId) -> Result<Vec<TermId>, AllocError>
    ensures { IfOk result (λ rs. rs.items ≡ root ∷ []) }
{
    let mut roots = Vec::new(terms.allocator());
    roots.push(root)?;
    Ok(roots)
}

// `x0 op x1 op ..`
fn chain(terms: &mut Terms, links: Links, sort: Sort, size: u32) -> Result<TermId, AllocError>
    requires sorted { IsChained links sort }
    requires blank { terms.old.sorts ≡ [] }
    ensures known { IfOk result (λ t. IsKnown terms.new.nodes sort t.0) }
    ensures term { IfOk result (λ t. term terms.new.nodes t.0 ≡ chain links sort size) }
    ensures symbols { OnOk result (length terms.new.sorts ≡ size + 1) }
{
    let mut whole = terms.symbol(sort)?;
    for place in 0..size {
        let next = terms.symbol(sort)?;
        whole = terms.binary(links.at(place), whole, next)?;
    }
    Ok(whole)
}

// So many pairs of neighbours.
fn pairs(terms: &mut Terms, pair: Pair, size: u32) -> Result<Vec<TermId>, AllocError>
    requires blank { terms.old.sorts ≡ [] }
    ensures truths { IfOk result (λ rs. All (λ r. IsKnown terms.new.nodes Truth r.0) rs.items) }
    ensures roots { IfOk result (λ rs. map (λ r. term terms.new.nodes r.0) rs.items ≡ pairs pair size) }
{
    let mut roots = Vec::new(terms.allocator());
    let mut left = terms.symbol(Sort::Word32)?;
    for _ in 0..size {
        let right = terms.symbol(Sort::Word32)?;
        roots.push(pair_of(terms, pair, left, right)?)?;
        left = right;
    }
    Ok(roots)
}

fn pair_of(terms: &mut Terms, pair: Pair, left: TermId, right: TermId) -> Result<TermId, AllocError>
    requires left { IsKnown terms.old.nodes Word32 left.0 }
    requires right { IsKnown terms.old.nodes Word32 right.0 }
    ensures known { IfOk result (λ t. IsKnown terms.new.nodes Truth t.0) }
    ensures term { IfOk result (λ t. term terms.new.nodes t.0 ≡ pair_term pair (term terms.old.nodes left.0) (term terms.old.nodes right.0)) }
    ensures kept { OnOk result (Keeps terms.old.nodes terms.new.nodes) }
    ensures sorts { OnOk result (terms.new.sorts ≡ terms.old.sorts) }
{
    match pair {
        Pair::Less => terms.binary(Op2::Less, left, right),
        Pair::Equal => terms.binary(Op2::Equal, left, right),
        Pair::Negated => negated(terms, left, right),
        Pair::Least => least(terms, left, right),
        Pair::Fact => fact(terms, left, right),
    }
}

fn negated(terms: &mut Terms, left: TermId, right: TermId) -> Result<TermId, AllocError>
    requires left { IsKnown terms.old.nodes Word32 left.0 }
    requires right { IsKnown terms.old.nodes Word32 right.0 }
    ensures known { IfOk result (λ t. IsKnown terms.new.nodes Truth t.0) }
    ensures term { IfOk result (λ t. term terms.new.nodes t.0 ≡ pair_term Pair.Negated (term terms.old.nodes left.0) (term terms.old.nodes right.0)) }
    ensures kept { OnOk result (Keeps terms.old.nodes terms.new.nodes) }
    ensures sorts { OnOk result (terms.new.sorts ≡ terms.old.sorts) }
{
    let minus = terms.unary(Op1::Neg, left)?;
    terms.binary(Op2::Equal, minus, right)
}

fn least(terms: &mut Terms, left: TermId, right: TermId) -> Result<TermId, AllocError>
    requires left { IsKnown terms.old.nodes Word32 left.0 }
    requires right { IsKnown terms.old.nodes Word32 right.0 }
    ensures known { IfOk result (λ t. IsKnown terms.new.nodes Truth t.0) }
    ensures term { IfOk result (λ t. term terms.new.nodes t.0 ≡ pair_term Pair.Least (term terms.old.nodes left.0) (term terms.old.nodes right.0)) }
    ensures kept { OnOk result (Keeps terms.old.nodes terms.new.nodes) }
    ensures sorts { OnOk result (terms.new.sorts ≡ terms.old.sorts) }
{
    let below = terms.binary(Op2::Less, left, right)?;
    let least = terms.choose(below, left, right)?;
    terms.binary(Op2::Equal, least, right)
}

// Each part is made anew, and found where it stands already.
fn fact(terms: &mut Terms, left: TermId, right: TermId) -> Result<TermId, AllocError>
    requires left { IsKnown terms.old.nodes Word32 left.0 }
    requires right { IsKnown terms.old.nodes Word32 right.0 }
    ensures known { IfOk result (λ t. IsKnown terms.new.nodes Truth t.0) }
    ensures term { IfOk result (λ t. term terms.new.nodes t.0 ≡ pair_term Pair.Fact (term terms.old.nodes left.0) (term terms.old.nodes right.0)) }
    ensures kept { OnOk result (Keeps terms.old.nodes terms.new.nodes) }
    ensures sorts { OnOk result (terms.new.sorts ≡ terms.old.sorts) }
{
    let before = successor(terms, left)?;
    let after = successor(terms, right)?;
    terms.binary(Op2::Equal, before, after)
}

fn successor(terms: &mut Terms, word: TermId) -> Result<TermId, AllocError>
    requires { IsKnown terms.old.nodes Word32 word.0 }
    ensures known { IfOk result (λ t. IsKnown terms.new.nodes Word32 t.0) }
    ensures term { IfOk result (λ t. term terms.new.nodes t.0 ≡ successor (term terms.old.nodes word.0)) }
    ensures kept { OnOk result (Keeps terms.old.nodes terms.new.nodes) }
    ensures sorts { OnOk result (terms.new.sorts ≡ terms.old.sorts) }
{
    let one = terms.constant(Word(1))?;
    terms.binary(Op2::Add, word, one)
}
