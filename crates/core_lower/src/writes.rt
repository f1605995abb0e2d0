//! The code of writes to fields.

ghost use Rattle.std.specs.Prelude.{◌≡◌, [], None, Some, IfOk, OnOk};
ghost use Rattle.gc0_base.specs.declared.site.Kind.TheVariants as kind;
ghost use Rattle.gc0_tree.specs.Sites.{second};
ghost use Rattle.gc0_tree.specs.Tree.{write_at};
ghost use Rattle.gc0_tree.specs.Views.{expr_view};
ghost use Rattle.core_tree.specs.CoreTree.{do_load};
ghost use Rattle.lowering_laws.specs.Counts.{Counts, with_temp};
ghost use Rattle.lowering_laws.specs.Trees.{one, temp};
ghost use Rattle.lowering_laws.specs.Tables.{placed};
ghost use Rattle.gc0_tree.specs.declared.Shape.TheVariants as shape;
ghost use Rattle.core_expressions.specs.Writing.{IsWithin, places_of, target_of, StandsFor, IsWritten};
ghost use Rattle.core_lower.specs.Parts.{IsStmt};

use crate::steps::begin;
use core_expressions::{Within, Written, lower_expr, lower_operator};
use core_tables::PlacedSite;
use core_tree::{CoreStmt, Simple};
use gc0_base::{Kind, Place, Site};
use gc0_tree::{Expr, ExprOp, Shape};
use std::alloc::AllocError;

/// A field: the number of its struct, its own number in that struct, and the place of the `->`.
#[derive(Clone, Copy, Debug, PartialEq, Eq)]
pub struct Field {
    pub of_struct: u32,
    pub field: u32,
    pub arrow: Place,
}

// `p->f = e`: the pointer, the value, the write.
fn lower_write(
    within: &Within<'_>,
    out: &mut Written,
    place: Place,
    base: &Expr,
    field: Field,
    op_place: Place,
    e: &Expr,
) -> Result<(), AllocError>
    requires { IsWithin within.now }
    ensures { OnOk result (IsStmt within.now out.old out.new (write_at place (expr_view base.now) field.of_struct field.field field.arrow None op_place (expr_view e.now))) }
{
    let site = within.site(Kind::Access, field.arrow);
    begin(out)?;
    let base = lower_expr(within, out, base)?;
    let x = lower_expr(within, out, e)?;
    out.place(PlacedSite {
        site,
        about: None,
        place: field.arrow,
    })?;
    out.push(CoreStmt::Store {
        base: base.value,
        of_struct: field.of_struct,
        field: field.field,
        value: x.value,
        site,
    })
}

// What a write by an operator reads: the next temporary of an `int`, whose number this gives.
fn load(
    within: &Within<'_>,
    out: &mut Written,
    base: Simple,
    field: Field,
    site: Site,
) -> Result<u32, AllocError>
    requires { IsWithin within.now }
    ensures number { (c : Counts) → StandsFor out.old c → IfOk result (λ to. to ≡ temp (target_of within.now) shape.Int c) }
    ensures written { (c : Counts) → StandsFor out.old c → OnOk result (IsWritten out.old out.new (with_temp shape.Int c) (one (do_load (temp (target_of within.now) shape.Int c) base field.of_struct field.field site)) [] (placed site field.arrow)) }
{
    let to = out.take(within, Shape::Int)?;
    out.place(PlacedSite {
        site,
        about: None,
        place: field.arrow,
    })?;
    out.push(CoreStmt::Load {
        to,
        base,
        of_struct: field.of_struct,
        field: field.field,
        site,
    })?;
    Ok(to)
}

// The site of the write of an assignment by an operator, which comes after its read.
fn second(site: Site) -> Result<Site, AllocError>
    ensures { IfOk result (λ x. x ≡ second site) }
{
    if site.ordinal == u32::MAX {
        return Err(AllocError);
    }
    Ok(Site {
        function: site.function,
        kind: site.kind,
        ordinal: site.ordinal + 1,
    })
}

// `p->f op= e`: the pointer, the read, the value, the operator, the write.
fn lower_change(
    within: &Within<'_>,
    out: &mut Written,
    place: Place,
    base: &Expr,
    field: Field,
    op: ExprOp,
    op_place: Place,
    e: &Expr,
) -> Result<(), AllocError>
    requires { IsWithin within.now }
    ensures { OnOk result (IsStmt within.now out.old out.new (write_at place (expr_view base.now) field.of_struct field.field field.arrow (Some op) op_place (expr_view e.now))) }
{
    let site = within.site(Kind::Access, field.arrow);
    let written = second(site)?;
    begin(out)?;
    let base = lower_expr(within, out, base)?;
    let to = load(within, out, base.value, field, site)?;
    let x = lower_expr(within, out, e)?;
    lower_operator(within, out, to, op, op_place, Simple::Local(to), x.value)?;
    out.place(PlacedSite {
        site: written,
        about: None,
        place: field.arrow,
    })?;
    out.push(CoreStmt::Store {
        base: base.value,
        of_struct: field.of_struct,
        field: field.field,
        value: Simple::Local(to),
        site: written,
    })
}

// Either of them.
pub fn lower_written(
    within: &Within<'_>,
    out: &mut Written,
    place: Place,
    base: &Expr,
    field: Field,
    op: Option<ExprOp>,
    op_place: Place,
    e: &Expr,
) -> Result<(), AllocError>
    requires { IsWithin within.now }
    ensures { OnOk result (IsStmt within.now out.old out.new (write_at place (expr_view base.now) field.of_struct field.field field.arrow op op_place (expr_view e.now))) }
{
    match op {
        None => lower_write(within, out, place, base, field, op_place, e),
        Some(op) => lower_change(within, out, place, base, field, op, op_place, e),
    }
}
