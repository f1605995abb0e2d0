//! The code of the statements without parts.

ghost use Rattle.std.specs.Prelude.{◌≡◌, IfOk, OnOk};
ghost use Rattle.gc0_tree.specs.Tree.{declare_at, assign_at, plain_at, return_at, raise_at, assert_at};
ghost use Rattle.gc0_tree.specs.Views.{expr_view, expr_in};
ghost use Rattle.lowering_laws.specs.Counts.{Counts, first_counted};
ghost use Rattle.lowering_laws.specs.Trees.{first_value, first_code};
ghost use Rattle.lowering_laws.specs.Tables.{first_decisions, first_placed};
ghost use Rattle.core_expressions.specs.Writing.{IsWithin, program_of, places_of, room_in, target_of, StandsFor, IsWritten};
ghost use Rattle.core_lower.specs.Parts.{IsNumbered, IsStmt};

use crate::steps::{begin, decide_after};
use core_expressions::{Within, Written, lower_expr, lower_operator};
use core_tables::PlacedSite;
use core_tree::{CoreStmt, Simple};
use gc0_base::{Kind, Place};
use gc0_tree::{Expr, ExprOp};
use std::alloc::AllocError;

// `error(..)`, by the number of its text.
pub fn lower_raise(
    within: &Within<'_>,
    out: &mut Written,
    place: Place,
    text: u32,
) -> Result<(), AllocError>
    requires { IsWithin within.now }
    ensures { OnOk result (IsStmt within.now out.old out.new (raise_at place text)) }
{
    let site = within.site(Kind::Trap, place);
    begin(out)?;
    out.place(PlacedSite {
        site,
        about: Some(text),
        place,
    })?;
    out.push(CoreStmt::Raise { text, site })
}

// `assert(..)` of the code.
pub fn lower_assert(
    within: &Within<'_>,
    out: &mut Written,
    place: Place,
    e: &Expr,
) -> Result<(), AllocError>
    requires { IsWithin within.now }
    ensures { OnOk result (IsStmt within.now out.old out.new (assert_at place (expr_view e.now))) }
{
    let site = within.site(Kind::Trap, place);
    begin(out)?;
    let x = lower_expr(within, out, e)?;
    out.place(PlacedSite {
        site,
        about: None,
        place,
    })?;
    out.push(CoreStmt::Assert {
        condition: x.value,
        site,
    })
}

// An expression whose value is dropped.
pub fn lower_plain(
    within: &Within<'_>,
    out: &mut Written,
    place: Place,
    e: &Expr,
) -> Result<(), AllocError>
    requires { IsWithin within.now }
    ensures { OnOk result (IsStmt within.now out.old out.new (plain_at place (expr_view e.now))) }
{
    begin(out)?;
    lower_expr(within, out, e)?;
    Ok(())
}

// A declaration; one without a value leaves the local as it is.
pub fn lower_declared(
    within: &Within<'_>,
    out: &mut Written,
    place: Place,
    local: u32,
    value: &Option<Expr>,
) -> Result<(), AllocError>
    requires { IsWithin within.now }
    ensures { OnOk result (IsStmt within.now out.old out.new (declare_at place local (expr_in value.now))) }
{
    begin(out)?;
    match value {
        None => Ok(()),
        Some(e) => {
            let x = lower_expr(within, out, e)?;
            out.push(CoreStmt::Set {
                to: local,
                from: x.value,
            })
        }
    }
}

// `x = e` or `x op= e`.
pub fn lower_assigned(
    within: &Within<'_>,
    out: &mut Written,
    place: Place,
    local: u32,
    op: Option<ExprOp>,
    op_place: Place,
    e: &Expr,
) -> Result<(), AllocError>
    requires { IsWithin within.now }
    ensures { OnOk result (IsStmt within.now out.old out.new (assign_at place local op op_place (expr_view e.now))) }
{
    begin(out)?;
    let x = lower_expr(within, out, e)?;
    match op {
        None => out.push(CoreStmt::Set {
            to: local,
            from: x.value,
        }),
        Some(op) => {
            lower_operator(
                within,
                out,
                local,
                op,
                op_place,
                Simple::Local(local),
                x.value,
            )
        }
    }
}

// A value that may be absent.
fn lower_value(
    within: &Within<'_>,
    out: &mut Written,
    value: &Option<Expr>,
) -> Result<Option<Simple>, AllocError>
    requires { IsWithin within.now }
    ensures value { (c : Counts) → StandsFor out.old c → IfOk result (λ x. x ≡ first_value (program_of within.now) (room_in within.now) (target_of within.now) c (expr_in value.now)) }
    ensures written { (c : Counts) → StandsFor out.old c → OnOk result (IsWritten out.old out.new (first_counted (program_of within.now) (room_in within.now) c (expr_in value.now)) (first_code (program_of within.now) (room_in within.now) (target_of within.now) c (expr_in value.now)) (first_decisions (program_of within.now) (places_of within.now) (expr_in value.now)) (first_placed (places_of within.now) (expr_in value.now))) }
{
    match value {
        None => Ok(None),
        Some(e) => {
            let x = lower_expr(within, out, e)?;
            Ok(Some(x.value))
        }
    }
}

// `return`, with a value or without one. It shows the function's `ensures`.
pub fn lower_return(
    within: &Within<'_>,
    out: &mut Written,
    place: Place,
    value: &Option<Expr>,
) -> Result<(), AllocError>
    requires within { IsWithin within.now }
    requires number { IsNumbered within.now }
    ensures { OnOk result (IsStmt within.now out.old out.new (return_at place (expr_in value.now))) }
{
    let site = within.site(Kind::Ensures, place);
    begin(out)?;
    let value = lower_value(within, out, value)?;
    decide_after(within, out, site)?;
    out.place(PlacedSite {
        site,
        about: None,
        place,
    })?;
    out.push(CoreStmt::Return { value, site })
}
