//! Questions whose answer can be read off.
ghost use Rattle.std.specs.Prelude.{◌≡◌, ◌<◌, ◌↔◌, [], ◌∷◌, length, IsTrue, false};
ghost use Rattle.std.specs.List.{Any};
ghost use Rattle.word_blast.specs.Queries.{ids};
ghost use Rattle.word_blast.specs.Valuations.{AreTruths};
ghost use Rattle.entail.specs.Questions.{IsTruth, question_of, IsTrivial};
ghost use Rattle.entail.specs.Settling.{IsEvident, Settles};

use word_terms::{Node, Op2, TermId, Terms};

/// Whether the answer `Yes` can be read off: the claim is the constant true, or one of the
/// facts, or it says that a term equals itself, or one of the facts is the constant false. It
/// takes no memory.
pub fn is_trivial(terms: &Terms, facts: &[TermId], claim: TermId) -> bool
    requires facts { AreTruths terms.now.nodes (ids facts.now) }
    requires claim { IsTruth terms.now.nodes claim.0 }
    ensures { IsTrue result ↔ IsTrivial (question_of terms.now (ids facts.now) claim.0) }
{
    // That the table is well formed is known from here on.
    let _nodes = terms.nodes();
    is_evident(terms.node(claim)) || any_settles(terms, facts, claim)
}

fn is_evident(node: Node) -> bool
    ensures { IsTrue result ↔ IsEvident node }
{
    match node {
        Node::Truth(truth) => truth,
        Node::Binary(Op2::Equal, left, right) => left == right,
        _ => false,
    }
}

// Whether a fact is the claim, or the constant false.
fn any_settles(terms: &Terms, facts: &[TermId], claim: TermId) -> bool
    requires { AreTruths terms.now.nodes (ids facts.now) }
    ensures { IsTrue result ↔ Any (Settles terms.now.nodes claim) facts.now }
{
    for fact in facts {
        if settles(terms, *fact, claim) {
            return true;
        }
    }
    false
}

fn settles(terms: &Terms, fact: TermId, claim: TermId) -> bool
    requires { fact.0 < length terms.now.nodes }
    ensures { IsTrue result ↔ Settles terms.now.nodes claim fact }
{
    fact == claim || is_false(terms.node(fact))
}

fn is_false(node: Node) -> bool
    ensures { IsTrue result ↔ (node ≡ Node.Truth false) }
{
    match node {
        Node::Truth(truth) => !truth,
        _ => false,
    }
}
