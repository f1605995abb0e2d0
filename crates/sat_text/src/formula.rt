//! Formulas: so many variables, and clauses over them.
ghost use Rattle.std.specs.Prelude.{◌≡◌, [], ◌∷◌, ◌++◌, length, OnOk, OnErr};

use sat_check::Clause;
use std::alloc::{AllocError, Global};
use std::marker::Model;

/// The clauses of a formula, which contracts see as a list.
#[derive(Drop)]
pub struct Clauses {
    clauses: Vec<Clause>,
}

impl Model for Clauses {
    ghost use Rattle.std.specs.Prelude.{List};
    ghost use Rattle.sat_check.specs.declared.clause.Clause.{Clause as OneClause};

    ghost Value = { List OneClause };

    ghost view = { λ it. it.clauses.items };
}

impl Clauses {
    /// No clause.
    pub fn new(alloc: Global) -> Clauses
        ensures { result ≡ [] }
    {
        Clauses {
            clauses: Vec::new(alloc),
        }
    }

    /// Adds a clause at the end. Without memory nothing changes.
    pub fn push(&mut self, clause: Clause) -> Result<(), AllocError>
        ensures ok { OnOk result (self.new ≡ self.old ++ clause ∷ []) }
        ensures err { OnErr result (self.new ≡ self.old) }
    {
        self.clauses.push(clause)?;
        Ok(())
    }

    /// The clauses, in order.
    pub fn as_slice(&self) -> &[Clause]
        ensures { result.now ≡ self.now }
    {
        self.clauses.as_slice()
    }

    /// How many clauses there are.
    pub fn len(&self) -> usize
        ensures { result ≡ length self.now }
    {
        self.clauses.len()
    }
}

/// A formula: clauses over the variables 0 to `variables` - 1.
#[derive(Drop)]
pub struct Formula {
    /// How many variables there are.
    pub variables: u32,
    /// What has to be true.
    pub clauses: Clauses,
}
