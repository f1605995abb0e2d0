//! The table of terms, in which each stands once.

ghost use Rattle.std.specs.Prelude.{◌≡◌, ◌<◌, [], ◌∷◌, ◌++◌, length, slice_get, IfOk, OnOk, OnErr};
ghost use Rattle.word_terms.specs.Terms.{symbol, TakesOne, TakesTwo, TakesThree, sort_of};
ghost use Rattle.word_terms.specs.Tables.{terms_of, term, term_of, IsWhole, IsTable, Gives};
ghost use Rattle.word_terms.specs.Laws.{Keeps};

use crate::node::{Node, Op1, Op2, Sort, TermId};
use gc0_base::Word;
use indexmap::IndexSet;
use std::alloc::{AllocError, Global};
use std::marker::Model;

/// A table of terms that keeps each term once. Parts have smaller numbers than the terms
/// that are made of them, so a walk by number comes to the parts first.
///
/// Terms are found again by an index, so a table of n terms is made in time that grows
/// with n.
#[derive(Drop)]
pub struct Terms {
    nodes: IndexSet<Node>,
    sorts: Vec<Sort>,
}

impl Model for Terms {
    ghost use Rattle.word_terms.specs.Tables.{Table, IsTable};

    ghost Value = { Table };

    ghost view = { λ t. record { nodes = t.nodes.keys; sorts = t.sorts.items } };

    ghost invariant = { λ t. IsTable (record { nodes = t.nodes.keys; sorts = t.sorts.items }) };
}

impl Terms {
    /// A table without terms. It takes no memory.
    pub fn new(alloc: Global) -> Terms
        ensures nodes { result.nodes ≡ [] }
        ensures sorts { result.sorts ≡ [] }
    {
        Terms {
            nodes: IndexSet::new(alloc),
            sorts: Vec::new(alloc),
        }
    }

    /// The number of terms. It takes no memory.
    pub fn terms(&self) -> u32
        ensures terms { result ≡ length self.now.nodes }
        ensures formed { IsTable self.now }
    {
        self.nodes.len() as u32
    }

    /// The number of symbols. It takes no memory.
    pub fn symbols(&self) -> u32
        ensures { result ≡ length self.now.sorts }
    {
        self.sorts.len() as u32
    }

    /// The sort of a symbol, by the symbol's number. It takes no memory.
    pub fn sort_of(&self, symbol: u32) -> Sort
        requires { symbol < length self.now.sorts }
        ensures { slice_get self.now.sorts symbol ≡ Some result }
    {
        self.sorts[symbol as usize]
    }

    /// A term's operator with its parts. It takes no memory.
    pub fn node(&self, term: TermId) -> Node
        requires { term.0 < length self.now.nodes }
        ensures { slice_get self.now.nodes term.0 ≡ Some result }
    {
        self.nodes.as_slice()[term.0 as usize]
    }

    /// The nodes of the terms, each at the place of its number. It takes no memory.
    pub fn nodes(&self) -> &[Node]
        ensures nodes { result.now ≡ self.now.nodes }
        ensures formed { IsTable self.now }
    {
        self.nodes.as_slice()
    }

    /// The allocator that the table grows by.
    pub fn allocator(&self) -> Global {
        *self.sorts.allocator()
    }

    /// A new symbol of a sort. It is refused where memory is wanting, and where the table
    /// has 2^32 - 1 terms.
    pub fn symbol(&mut self, sort: Sort) -> Result<TermId, AllocError>
        ensures number { IfOk result (λ t. t.0 ≡ length self.old.nodes) }
        ensures term { IfOk result (λ t. term self.new.nodes t.0 ≡ symbol (length self.old.sorts) sort) }
        ensures kept { OnOk result (Keeps self.old.nodes self.new.nodes) }
        ensures nodes { OnOk result (self.new.nodes ≡ self.old.nodes ++ Node.Symbol (length self.old.sorts) sort ∷ []) }
        ensures sorts { OnOk result (self.new.sorts ≡ self.old.sorts ++ sort ∷ []) }
        ensures refused { OnErr result (self.new ≡ self.old) }
    {
        let number = self.symbols();
        if number == u32::MAX {
            return Err(AllocError);
        }
        self.sorts.push(sort)?;
        match self.keep(Node::Symbol(number, sort)) {
            Ok(term) => Ok(term),
            Err(refused) => {
                let _ = self.sorts.pop();
                Err(refused)
            }
        }
    }

    /// The term of a word.
    pub fn constant(&mut self, word: Word) -> Result<TermId, AllocError>
        ensures given { IfOk result (λ t. Gives self.old self.new (Node.Constant word) t.0) }
        ensures term { IfOk result (λ t. term self.new.nodes t.0 ≡ term_of (terms_of self.old.nodes) (Node.Constant word)) }
        ensures kept { OnOk result (Keeps self.old.nodes self.new.nodes) }
        ensures refused { OnErr result (self.new ≡ self.old) }
    {
        self.keep(Node::Constant(word))
    }

    /// The term of a truth.
    pub fn truth(&mut self, truth: bool) -> Result<TermId, AllocError>
        ensures given { IfOk result (λ t. Gives self.old self.new (Node.Truth truth) t.0) }
        ensures term { IfOk result (λ t. term self.new.nodes t.0 ≡ term_of (terms_of self.old.nodes) (Node.Truth truth)) }
        ensures kept { OnOk result (Keeps self.old.nodes self.new.nodes) }
        ensures refused { OnErr result (self.new ≡ self.old) }
    {
        self.keep(Node::Truth(truth))
    }

    /// The term of an operator and its part.
    pub fn unary(&mut self, op: Op1, part: TermId) -> Result<TermId, AllocError>
        requires part { part.0 < length self.old.nodes }
        requires sorts { TakesOne op (sort_of (term self.old.nodes part.0)) }
        ensures given { IfOk result (λ t. Gives self.old self.new (Node.Unary op part) t.0) }
        ensures term { IfOk result (λ t. term self.new.nodes t.0 ≡ term_of (terms_of self.old.nodes) (Node.Unary op part)) }
        ensures kept { OnOk result (Keeps self.old.nodes self.new.nodes) }
        ensures refused { OnErr result (self.new ≡ self.old) }
    {
        self.keep(Node::Unary(op, part))
    }

    /// The term of an operator and its two parts.
    pub fn binary(&mut self, op: Op2, left: TermId, right: TermId) -> Result<TermId, AllocError>
        requires left { left.0 < length self.old.nodes }
        requires right { right.0 < length self.old.nodes }
        requires sorts { TakesTwo op (sort_of (term self.old.nodes left.0)) (sort_of (term self.old.nodes right.0)) }
        ensures given { IfOk result (λ t. Gives self.old self.new (Node.Binary op left right) t.0) }
        ensures term { IfOk result (λ t. term self.new.nodes t.0 ≡ term_of (terms_of self.old.nodes) (Node.Binary op left right)) }
        ensures kept { OnOk result (Keeps self.old.nodes self.new.nodes) }
        ensures refused { OnErr result (self.new ≡ self.old) }
    {
        self.keep(Node::Binary(op, left, right))
    }

    /// The term that is worth `yes` where the condition is true, and else `no`.
    pub fn choose(
        &mut self,
        condition: TermId,
        yes: TermId,
        no: TermId,
    ) -> Result<TermId, AllocError>
        requires condition { condition.0 < length self.old.nodes }
        requires yes { yes.0 < length self.old.nodes }
        requires no { no.0 < length self.old.nodes }
        requires sorts { TakesThree (sort_of (term self.old.nodes condition.0)) (sort_of (term self.old.nodes yes.0)) (sort_of (term self.old.nodes no.0)) }
        ensures given { IfOk result (λ t. Gives self.old self.new (Node.Choose condition yes no) t.0) }
        ensures term { IfOk result (λ t. term self.new.nodes t.0 ≡ term_of (terms_of self.old.nodes) (Node.Choose condition yes no)) }
        ensures kept { OnOk result (Keeps self.old.nodes self.new.nodes) }
        ensures refused { OnErr result (self.new ≡ self.old) }
    {
        self.keep(Node::Choose(condition, yes, no))
    }

    // The number of a node: its own, or that behind the last.
    fn keep(&mut self, node: Node) -> Result<TermId, AllocError>
        requires { IsWhole self.old.sorts (terms_of self.old.nodes) (length self.old.nodes) node }
        ensures given { IfOk result (λ t. Gives self.old self.new node t.0) }
        ensures term { IfOk result (λ t. term self.new.nodes t.0 ≡ term_of (terms_of self.old.nodes) node) }
        ensures kept { OnOk result (Keeps self.old.nodes self.new.nodes) }
        ensures refused { OnErr result (self.new ≡ self.old) }
    {
        if self.nodes.len() >= u32::MAX as usize {
            return Err(AllocError);
        }
        let (place, _) = self.nodes.insert_full(node)?;
        Ok(TermId(place as u32))
    }
}
