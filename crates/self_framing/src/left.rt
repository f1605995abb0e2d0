//! What stands to the left of a read, and what it permits.

ghost use Rattle.std.specs.Prelude.{◌≡◌, [], ◌||◌};
ghost use Rattle.gc0_tree.specs.Tree.{Conjuncts};
ghost use Rattle.gc0_tree.specs.Views.{expr_view, conjunct_view, conjuncts_view};
ghost use Rattle.c0_meaning.specs.Framing.{same_path, is_permitted};
ghost use Rattle.self_framing.specs.Left.{permitted, behind, has_acc};

use gc0_tree::{Conjunct, Expr, ExprForm};

/// What stands to the left of a conjunct. It lies on the stack, with one link for each choice
/// that the conjunct stands in.
#[derive(Clone, Copy)]
pub enum Left<'a> {
    /// Nothing: there a formula begins.
    Nothing,
    /// These conjuncts, and what stands to their left.
    Behind(&'a [Conjunct], &'a Left<'a>),
}

// Whether two expressions are the same path.
fn same_path(a: &Expr, b: &Expr) -> bool
    ensures { result ≡ same_path (expr_view a.now) (expr_view b.now) }
{
    match (&a.form, &b.form) {
        (ExprForm::Local(i), ExprForm::Local(j)) => *i == *j,
        (ExprForm::ResultValue, ExprForm::ResultValue) => true,
        (
            ExprForm::Read {
                base: x,
                of_struct: i,
                field: f,
            },
            ExprForm::Read {
                base: y,
                of_struct: j,
                field: g,
            },
        ) => same_path(x.get(), y.get()) && *i == *j && *f == *g,
        _ => false,
    }
}

// Whether a conjunct is the `acc` of this field of this path.
fn is_acc(part: &Conjunct, base: &Expr, field: u32) -> bool
    ensures { (rest : Conjuncts) → has_acc (conjunct_view part.now rest) (expr_view base.now) field ≡ (result || has_acc rest (expr_view base.now) field) }
{
    match part {
        Conjunct::Value(_) => false,
        Conjunct::Acc(path, f) => same_path(path, base) && *f == field,
        Conjunct::Instance(_, _, _) => false,
        Conjunct::Choice(_, _, _, _) => false,
    }
}

fn has_acc(parts: &[Conjunct], base: &Expr, field: u32) -> bool
    ensures { result ≡ has_acc (conjuncts_view parts.now) (expr_view base.now) field }
{
    for part in parts {
        if is_acc(part, base, field) {
            return true;
        }
    }
    false
}

/// Whether a field of a path is permitted.
pub fn is_permitted(left: &Left<'_>, base: &Expr, field: u32) -> bool
    ensures { result ≡ is_permitted (permitted left.now) (expr_view base.now) field }
{
    match left {
        Left::Nothing => false,
        Left::Behind(parts, outer) => {
            has_acc(parts, base, field) || is_permitted(outer, base, field)
        }
    }
}
