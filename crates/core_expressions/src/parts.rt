//! The statements that the code of expressions consists of.

ghost use Rattle.std.specs.Prelude.{◌≡◌, [], Some, OnOk};
ghost use Rattle.gc0_base.specs.declared.site.Kind.TheVariants as kind;
ghost use Rattle.core_tree.specs.CoreTree.{do_set, do_unary, do_load, do_new, do_step, do_if, code_and};
ghost use Rattle.core_tree.specs.CoreViews.{code_view};
ghost use Rattle.lowering_laws.specs.Counts.{Counts};
ghost use Rattle.lowering_laws.specs.Trees.{one, join, constant};
ghost use Rattle.lowering_laws.specs.Tables.{placed};
ghost use Rattle.core_expressions.specs.Writing.{IsWithin, places_of, StandsFor, IsWritten};

use crate::within::Within;
use crate::written::Written;
use core_tables::PlacedSite;
use core_tree::{CoreStmt, Simple};
use gc0_base::{Decision, Kind, Place, Word};
use gc0_tree::UnaryOp;
use sqlite_items::Items;
use std::alloc::AllocError;

pub(crate) fn zero() -> Simple
    ensures { result ≡ constant 0 }
{
    Simple::Const(Word(0))
}

pub(crate) fn push_set(out: &mut Written, to: u32, from: Simple) -> Result<(), AllocError>
    ensures { (c : Counts) → StandsFor out.old c → OnOk result (IsWritten out.old out.new c (one (do_set to from)) [] []) }
{
    out.push(CoreStmt::Set { to, from })
}

pub(crate) fn push_unary(
    out: &mut Written,
    to: u32,
    op: UnaryOp,
    a: Simple,
) -> Result<(), AllocError>
    ensures { (c : Counts) → StandsFor out.old c → OnOk result (IsWritten out.old out.new c (one (do_unary to op a)) [] []) }
{
    out.push(CoreStmt::Unary { to, op, a })
}

pub(crate) fn push_step(out: &mut Written) -> Result<(), AllocError>
    ensures { (c : Counts) → StandsFor out.old c → OnOk result (IsWritten out.old out.new c (one do_step) [] []) }
{
    out.push(CoreStmt::Step)
}

pub(crate) fn push_new(out: &mut Written, to: u32, of_struct: u32) -> Result<(), AllocError>
    ensures { (c : Counts) → StandsFor out.old c → OnOk result (IsWritten out.old out.new c (code_and do_step (one (do_new to of_struct))) [] []) }
{
    push_step(out)?;
    out.push(CoreStmt::New { to, of_struct })
}

// A read of a field, and its access.
pub(crate) fn push_load(
    within: &Within<'_>,
    out: &mut Written,
    to: u32,
    base: Simple,
    of_struct: u32,
    field: u32,
    place: Place,
) -> Result<(), AllocError>
    requires { IsWithin within.now }
    ensures { (c : Counts) → StandsFor out.old c → OnOk result (IsWritten out.old out.new c (one (do_load to base of_struct field (places_of within.now kind.Access place))) [] (placed (places_of within.now kind.Access place) place)) }
{
    let site = within.site(Kind::Access, place);
    out.place(PlacedSite {
        site,
        about: None,
        place,
    })?;
    out.push(CoreStmt::Load {
        to,
        base,
        of_struct,
        field,
        site,
    })
}

// A side of a branch sets the temporary.
fn set_behind(code: &mut Items<CoreStmt>, to: u32, from: Simple) -> Result<(), AllocError>
    ensures { OnOk result (code_view code.new ≡ join (code_view code.old) (one (do_set to from))) }
{
    code.push(CoreStmt::Set { to, from })
}

// A branch whose sides set a temporary.
pub(crate) fn push_branch(
    out: &mut Written,
    decision: Decision,
    condition: Simple,
    to: u32,
    yes: Items<CoreStmt>,
    taken: Simple,
    no: Items<CoreStmt>,
    other: Simple,
) -> Result<(), AllocError>
    ensures { (c : Counts) → StandsFor out.old c → OnOk result (IsWritten out.old out.new c (one (do_if decision condition (join (code_view yes) (one (do_set to taken))) (join (code_view no) (one (do_set to other))))) [] []) }
{
    let mut yes = yes;
    let mut no = no;
    set_behind(&mut yes, to, taken)?;
    set_behind(&mut no, to, other)?;
    out.push(CoreStmt::If {
        decision,
        condition,
        yes,
        no,
    })
}
