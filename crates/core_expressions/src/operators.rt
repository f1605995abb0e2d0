//! The code of the operators between two values.

ghost use Rattle.std.specs.Prelude.{◌≡◌, [], Some, None, OnOk};
ghost use Rattle.gc0_base.specs.declared.site.Kind.TheVariants as kind;
ghost use Rattle.core_tree.specs.CoreTree.{do_binary, do_unary, no_code, code_and};
ghost use Rattle.gc0_tree.specs.declared.UnaryOp.TheVariants as unary;
ghost use Rattle.core_tree.specs.declared.Simple.TheVariants as simple;
ghost use Rattle.lowering_laws.specs.Counts.{Counts};
ghost use Rattle.lowering_laws.specs.Trees.{one, operator_code};
ghost use Rattle.lowering_laws.specs.Tables.{op_placed, placed_if};
ghost use Rattle.gc0_tree.specs.Sites.{may_fault};
ghost use Rattle.core_expressions.specs.Writing.{IsWithin, places_of, StandsFor, IsWritten};

use crate::parts::push_unary;
use crate::shapes::may_fault;
use crate::within::Within;
use crate::written::Written;
use core_tables::PlacedSite;
use core_tree::{BinaryOp, CoreStmt, Simple};
use gc0_base::{Kind, Place, Site};
use gc0_tree::{ExprOp, UnaryOp};
use std::alloc::AllocError;

fn push_binary(
    out: &mut Written,
    to: u32,
    op: BinaryOp,
    a: Simple,
    b: Simple,
    site: Option<Site>,
) -> Result<(), AllocError>
    ensures { (c : Counts) → StandsFor out.old c → OnOk result (IsWritten out.old out.new c (one (do_binary to op a b site)) [] []) }
{
    out.push(CoreStmt::Binary { to, op, a, b, site })
}

// The opposite of a comparison.
fn push_opposite(
    out: &mut Written,
    to: u32,
    op: BinaryOp,
    a: Simple,
    b: Simple,
) -> Result<(), AllocError>
    ensures { (c : Counts) → StandsFor out.old c → OnOk result (IsWritten out.old out.new c (code_and (do_binary to op a b None) (one (do_unary to unary.Flip (simple.Local to)))) [] []) }
{
    push_binary(out, to, op, a, b, None)?;
    push_unary(out, to, UnaryOp::Flip, Simple::Local(to))
}

fn push_operator(
    out: &mut Written,
    to: u32,
    op: ExprOp,
    site: Site,
    a: Simple,
    b: Simple,
) -> Result<(), AllocError>
    ensures { (c : Counts) → StandsFor out.old c → OnOk result (IsWritten out.old out.new c (operator_code to op site a b) [] []) }
{
    match op {
        ExprOp::Add => push_binary(out, to, BinaryOp::Add, a, b, None),
        ExprOp::Sub => push_binary(out, to, BinaryOp::Sub, a, b, None),
        ExprOp::Mul => push_binary(out, to, BinaryOp::Mul, a, b, None),
        ExprOp::Div => push_binary(out, to, BinaryOp::Div, a, b, Some(site)),
        ExprOp::Rem => push_binary(out, to, BinaryOp::Rem, a, b, Some(site)),
        ExprOp::Shl => push_binary(out, to, BinaryOp::Shl, a, b, Some(site)),
        ExprOp::Shr => push_binary(out, to, BinaryOp::Shr, a, b, Some(site)),
        ExprOp::And => push_binary(out, to, BinaryOp::And, a, b, None),
        ExprOp::Or => push_binary(out, to, BinaryOp::Or, a, b, None),
        ExprOp::Xor => push_binary(out, to, BinaryOp::Xor, a, b, None),
        ExprOp::Less => push_binary(out, to, BinaryOp::Less, a, b, None),
        ExprOp::LessEq => push_binary(out, to, BinaryOp::LessEq, a, b, None),
        ExprOp::Greater => push_binary(out, to, BinaryOp::Less, b, a, None),
        ExprOp::GreaterEq => push_opposite(out, to, BinaryOp::Less, a, b),
        ExprOp::Equal => push_binary(out, to, BinaryOp::Equal, a, b, None),
        ExprOp::NotEqual => push_opposite(out, to, BinaryOp::Equal, a, b),
    }
}

// The site of an operator that may fault.
fn place_operator(out: &mut Written, op: ExprOp, site: Site, place: Place) -> Result<(), AllocError>
    ensures { (c : Counts) → StandsFor out.old c → OnOk result (IsWritten out.old out.new c no_code [] (placed_if (may_fault op) site place)) }
{
    if may_fault(op) {
        return out.place(PlacedSite {
            site,
            about: None,
            place,
        });
    }
    Ok(())
}

/// Writes `to = a op b`; the token of the operator stands at a place.
///
/// Errors: there was not memory enough.
pub fn lower_operator(
    within: &Within<'_>,
    out: &mut Written,
    to: u32,
    op: ExprOp,
    place: Place,
    a: Simple,
    b: Simple,
) -> Result<(), AllocError>
    requires { IsWithin within.now }
    ensures { (c : Counts) → StandsFor out.old c → OnOk result (IsWritten out.old out.new c (operator_code to op (places_of within.now kind.Trap place) a b) [] (op_placed (places_of within.now) (Some op) place)) }
{
    let site = within.site(Kind::Trap, place);
    place_operator(out, op, site, place)?;
    push_operator(out, to, op, site, a, b)
}
