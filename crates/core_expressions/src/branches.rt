//! Branches within expressions: the code of a side stands apart until both sides are there.

ghost use Rattle.std.specs.Prelude.{◌≡◌, [], IfOk};
ghost use Rattle.core_tree.specs.declared.Simple.TheVariants as simple;
ghost use Rattle.lowering_laws.specs.Counts.{Counts, with_temp};
ghost use Rattle.core_expressions.specs.Writing.{IsWithin, StandsFor, IsOperand, temp_in};
ghost use Rattle.core_expressions.specs.Branches.{branch_code};

use crate::operand::Operand;
use crate::parts::push_branch;
use crate::within::Within;
use crate::written::Written;
use core_tree::{CoreStmt, Simple};
use gc0_base::Decision;
use gc0_tree::Shape;
use sqlite_items::Items;
use std::alloc::{AllocError, Global};

/// A value, and the code that computes it, apart from other code.
#[derive(Drop)]
pub struct Aside {
    /// Where the value is behind the code.
    pub value: Simple,
    /// The shape of the value.
    pub shape: Shape,
    /// The code.
    pub code: Items<CoreStmt>,
}

/// A value that no code computes.
pub fn bare(alloc: Global, value: Simple, shape: Shape) -> Aside
    ensures value { result.value ≡ value }
    ensures shape { result.shape ≡ shape }
    ensures code { result.code ≡ [] }
{
    Aside {
        value,
        shape,
        code: Items::new(alloc),
    }
}

/// Begins code that stands apart. Gives the code so far.
pub fn open(alloc: Global, out: &mut Written) -> Items<CoreStmt>
    ensures outer { result ≡ out.old.code }
    ensures inner { out.new ≡ record out.old { code = [] } }
{
    std::mem::replace(&mut out.code, Items::new(alloc))
}

/// Ends code that stands apart, and gives it. What is written next stands behind the code so far.
pub fn close(out: &mut Written, outer: Items<CoreStmt>) -> Items<CoreStmt>
    ensures inner { result ≡ out.old.code }
    ensures outer { out.new ≡ record out.old { code = outer } }
{
    std::mem::replace(&mut out.code, outer)
}

/// Writes a branch behind the code of its sides, each of which sets the temporary.
///
/// Errors: there was not memory enough, or a number would be 2^32 or more.
pub fn finish_branch(
    within: &Within<'_>,
    out: &mut Written,
    decision: Decision,
    condition: Simple,
    shape: Shape,
    yes: Aside,
    no: Aside,
) -> Result<Operand, AllocError>
    requires { IsWithin within.now }
    ensures { (c : Counts) → StandsFor out.old c → IfOk result (λ x. IsOperand out.old out.new x (simple.Local (temp_in within.now shape c)) shape (with_temp shape c) (branch_code decision condition (temp_in within.now shape c) yes no) [] []) }
{
    let to = out.take(within, shape)?;
    push_branch(
        out, decision, condition, to, yes.code, yes.value, no.code, no.value,
    )?;
    Ok(Operand {
        value: Simple::Local(to),
        shape,
    })
}
