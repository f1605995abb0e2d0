//! Where a value is put.

ghost use Rattle.std.specs.Prelude.{◌≡◌, Option, IfOk, OnOk};
ghost use Rattle.gc0_base.specs.declared.place.Place.{Place};
ghost use Rattle.gc0_tree.specs.declared.ExprOp.{ExprOp};
ghost use Rattle.gc0_tree.specs.Tree as gc0;
ghost use Rattle.gc0_tree.specs.Views.{expr_view, stmt_view, stmt_form_view};
ghost use Rattle.parsed_tree.specs.Tree.{spot_of};
ghost use Rattle.parsed_tree.specs.Views as read;
ghost use Rattle.c0_value_numbers.specs.Values.{number_in, accessed};
ghost use Rattle.c0_value_numbers.specs.Texts.{expr_texts};
ghost use Rattle.c0_numbers.specs.Statements.{write_tree, put_tree};
ghost use Rattle.c0_numbers.specs.Targets.{put_at};

use c0_names::Tables;
use c0_value_numbers::{Frame, Typed, access, expression, number_in, small};
use gc0_base::Place;
use gc0_tree::{Expr, ExprOp, Stmt, StmtForm};
use sqlite_items::{Boxed, Items};
use std::alloc::{AllocError, Global};

/// Where a value is put, with the place of its first token.
#[derive(Drop)]
pub enum Target {
    Local(Place, u32),
    /// The place of the first token and that of the `->`, the pointer, the struct and the field.
    Field(Place, Place, Boxed<Expr>, u32, u32),
    /// No target of the grammar.
    Other(Place),
}

fn local(frame: &Frame, first: Place, name: &[u8]) -> Result<Target, AllocError>
    ensures { IfOk result (λ r. (o : Option ExprOp) (q : Place) (y : gc0.Tree) → put_at r o q y ≡ gc0.assign_at first (number_in frame.now.locals.names name.now) o q y) }
{
    Ok(Target::Local(first, small(number_in(&frame.locals.names, name))?))
}

fn field(
    tables: &Tables,
    first: Place,
    arrow: Place,
    base: Typed,
    name: &[u8],
) -> Result<Target, AllocError>
    ensures { IfOk result (λ r. (o : Option ExprOp) (q : Place) (y : gc0.Tree) → put_at r o q y ≡ write_tree first arrow (expr_view base.tree) (accessed tables.now base.typed name.now) o q y) }
{
    let (of_struct, field) = access(tables, base.typed, name)?;
    Ok(Target::Field(first, arrow, base.tree, of_struct, field))
}

// The value of what is no target is left.
fn left(_value: Typed, first: Place) -> Target
    ensures { (o : Option ExprOp) (q : Place) (y : gc0.Tree) → put_at result o q y ≡ gc0.plain_at first y }
{
    Target::Other(first)
}

fn other(
    alloc: Global,
    tables: &Tables,
    frame: &Frame,
    texts: &mut Items<Items<u8>>,
    e: &parsed_tree::Expr,
) -> Result<Target, AllocError>
    ensures tree { IfOk result (λ r. (o : Option ExprOp) (q : Place) (y : gc0.Tree) → put_at r o q y ≡ gc0.plain_at (spot_of (read.expr_view e.now)).first y) }
    ensures texts { OnOk result (texts.new ≡ expr_texts texts.old (read.expr_view e.now)) }
{
    let first = e.spot().first;
    let value = expression(alloc, tables, frame, texts, e)?;
    Ok(left(value, first))
}

/// A target with numbers in place of names. Its texts are put behind the others.
pub fn target_at(
    alloc: Global,
    tables: &Tables,
    frame: &Frame,
    texts: &mut Items<Items<u8>>,
    e: &parsed_tree::Expr,
) -> Result<Target, AllocError>
    ensures tree { IfOk result (λ r. (o : Option ExprOp) (q : Place) (y : gc0.Tree) → put_at r o q y ≡ put_tree tables.now frame.now texts.old (read.expr_view e.now) o q y) }
    ensures texts { OnOk result (texts.new ≡ expr_texts texts.old (read.expr_view e.now)) }
{
    match e {
        parsed_tree::Expr::Local(spot, name) => local(frame, spot.first, name.as_slice()),
        parsed_tree::Expr::Arrow(spot, base, name) => {
            let base = expression(alloc, tables, frame, texts, base.get())?;
            field(tables, spot.first, spot.place, base, name.name.as_slice())
        }
        _ => other(alloc, tables, frame, texts, e),
    }
}

fn stands(place: Place, form: StmtForm) -> Stmt
    ensures { stmt_view result ≡ stmt_form_view form place }
{
    Stmt { place, form }
}

/// A value is put into a target.
pub fn put(target: Target, op: Option<ExprOp>, op_place: Place, value: Expr) -> Stmt
    ensures { stmt_view result ≡ put_at target op op_place (expr_view value) }
{
    match target {
        Target::Local(first, local) => stands(
            first,
            StmtForm::Assign {
                local,
                op,
                op_place,
                value,
            },
        ),
        Target::Field(first, arrow, base, of_struct, field) => stands(
            first,
            StmtForm::Write {
                base: base.into_inner(),
                of_struct,
                field,
                arrow,
                op,
                op_place,
                value,
            },
        ),
        Target::Other(first) => stands(first, StmtForm::Plain(value)),
    }
}
