//! What is counted of a query, and the line that says it.

ghost use Rattle.std.specs.Prelude.{◌≡◌, IfOk, string_bytes};
ghost use Rattle.solver_bench.specs.Families.{IsSorted};
ghost use Rattle.solver_bench.specs.Lines.{IsLine, line_of};

use crate::family::Family;
use crate::query::roots_of;
use std::alloc::{AllocError, Global};
use thiserror::Error;
use word_blast::{BlastRefusal, blast};
use word_terms::Terms;

/// Why nothing is printed.
#[derive(Debug, Drop, Error)]
pub enum Trouble {
    #[error("the query weighs {0}")]
    TooLarge(u64),
    #[error("no memory")]
    Memory,
}

impl From<AllocError> for Trouble {
    fn from(_: AllocError) -> Trouble {
        Trouble::Memory
    }
}

impl From<BlastRefusal> for Trouble {
    fn from(refusal: BlastRefusal) -> Trouble {
        match refusal {
            BlastRefusal::TooLarge(weight) => Trouble::TooLarge(weight),
            BlastRefusal::Memory => Trouble::Memory,
        }
    }
}

/// The numbers of terms, of their weight, of variables and of clauses of a family's query.
pub fn counts_of(alloc: Global, family: Family, size: u32) -> Result<String, Trouble>
    requires { IsSorted family }
    ensures { IfOk result (λ line. IsLine family size (string_bytes line)) }
{
    let mut terms = Terms::new(alloc);
    let roots = roots_of(&mut terms, family, size)?;
    let count = terms.terms();
    let weight = terms.gates(&roots)?;
    let query = blast(alloc, &terms, &roots, &[])?;
    let clauses = query.clauses.as_slice().len();
    Ok(line_of(alloc, count, weight, query.variables, clauses)?)
}

fn line_of(
    alloc: Global,
    terms: u32,
    weight: u64,
    variables: u32,
    clauses: usize,
) -> Result<String, AllocError>
    ensures { IfOk result (λ line. string_bytes line ≡ line_of terms weight variables clauses) }
{
    format!(in alloc; "{terms} {weight} {variables} {clauses}")
}
