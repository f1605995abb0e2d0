//! Literals and clauses.
ghost use Rattle.std.specs.Prelude.{◌≡◌, [], ◌∷◌, ◌++◌, length, IsTrue, IfOk, OnOk, OnErr, ◌↔◌, not};
ghost use Rattle.sat_check.specs.Clauses.{opposite_of, AreBelow, ClausesAreBelow};

use smallvec::SmallVec;
use std::alloc::{AllocError, Global};
use std::marker::Model;

/// A variable, or its negation. Variables are numbered from 0.
#[derive(Clone, Copy, PartialEq, Eq, Debug, Default)]
pub struct Lit {
    pub variable: u32,
    pub positive: bool,
}

impl Lit {
    /// The literal that is true exactly where this one is false.
    pub fn opposite(self) -> Lit
        ensures { result ≡ opposite_of self }
    {
        Lit {
            variable: self.variable,
            positive: !self.positive,
        }
    }
}

/// The literals of a clause, which contracts see as a list. Up to four lie in the value itself.
#[derive(Drop)]
pub struct Lits {
    lits: SmallVec<Lit, 4>,
}

impl Model for Lits {
    ghost use Rattle.std.specs.Prelude.{List};
    ghost use Rattle.sat_check.specs.declared.clause.Lit.{Lit as OneLit};

    ghost Value = { List OneLit };

    ghost view = { λ it. it.lits.items };
}

impl Lits {
    /// No literal. It takes no memory.
    pub fn new(alloc: Global) -> Lits
        ensures { result ≡ [] }
    {
        Lits {
            lits: SmallVec::new(alloc),
        }
    }

    /// The literals of `lits`, in order. It takes no memory.
    pub fn from_vec(lits: Vec<Lit>) -> Lits
        ensures { result ≡ lits.items }
    {
        Lits {
            lits: SmallVec::from_vec(lits),
        }
    }

    /// The literals as a `Vec`. It takes memory only where they lie in the value itself.
    pub fn into_vec(self) -> Result<Vec<Lit>, AllocError>
        ensures { IfOk result (λ lits. lits.items ≡ self) }
    {
        Ok(self.lits.into_vec()?)
    }

    /// Adds a literal at the end. Without memory nothing changes.
    pub fn push(&mut self, lit: Lit) -> Result<(), AllocError>
        ensures ok { OnOk result (self.new ≡ self.old ++ lit ∷ []) }
        ensures err { OnErr result (self.new ≡ self.old) }
    {
        self.lits.push(lit)?;
        Ok(())
    }

    /// The literals, in order.
    pub fn as_slice(&self) -> &[Lit]
        ensures { result.now ≡ self.now }
    {
        self.lits.as_slice()
    }

    /// How many literals there are, repeated ones too.
    pub fn len(&self) -> usize
        ensures { result ≡ length self.now }
    {
        self.lits.len()
    }

    /// Whether there is no literal.
    pub fn is_empty(&self) -> bool
        ensures { IsTrue result ↔ (self.now ≡ []) }
    {
        self.lits.is_empty()
    }
}

/// A clause: true where one of its literals is. The empty clause is never true.
#[derive(Drop)]
pub struct Clause {
    pub lits: Lits,
}

impl Clause {
    /// Whether each variable of a literal is below `variables`.
    pub fn is_below(&self, variables: u32) -> bool
        ensures { IsTrue result ↔ AreBelow variables self.now.lits }
    {
        self.lits
            .as_slice()
            .iter()
            .all(|lit| lit.variable < variables)
    }
}

/// Whether each variable of a literal of `clauses` is below `variables`: the test for the
/// condition of `check`.
pub fn are_below(variables: u32, clauses: &[Clause]) -> bool
    ensures { IsTrue result ↔ ClausesAreBelow variables clauses.now }
{
    clauses.iter().all(|clause| clause.is_below(variables))
}
