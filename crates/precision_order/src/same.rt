//! Whether two expressions are the same, places aside.

ghost use Rattle.std.specs.Prelude.{◌≡◌, Decides};
ghost use Rattle.std.specs.Option.{option_map};
ghost use Rattle.gc0_tree.specs.Views.{expr_view, exprs_view, trees_in};
ghost use Rattle.precision_order.specs.Bare.{bare, all_bare};

use gc0_tree::{Expr, ExprForm};
use sqlite_items::Boxed;

/// Whether two expressions are the same, places aside, in the time of the smaller one. Takes no
/// memory.
#[cycle(same)]
pub fn same_expr(a: &Expr, b: &Expr) -> bool
    ensures { Decides result (bare (expr_view a.now) ≡ bare (expr_view b.now)) }
{
    match (&a.form, &b.form) {
        (ExprForm::Number(m), ExprForm::Number(n)) => m.0 == n.0,
        (ExprForm::Truth(x), ExprForm::Truth(y)) => *x == *y,
        (ExprForm::Null, ExprForm::Null) => true,
        (ExprForm::Local(i), ExprForm::Local(j)) => *i == *j,
        (ExprForm::ResultValue, ExprForm::ResultValue) => true,
        (ExprForm::Unary(o, x), ExprForm::Unary(p, y)) => *o == *p && same_expr(x.get(), y.get()),
        (ExprForm::Binary(o, w, x), ExprForm::Binary(p, y, z)) => *o == *p
            && same_expr(w.get(), y.get())
            && same_expr(x.get(), z.get()),
        (ExprForm::Both(w, x), ExprForm::Both(y, z)) => same_expr(w.get(), y.get())
            && same_expr(x.get(), z.get()),
        (ExprForm::Either(w, x), ExprForm::Either(y, z)) => same_expr(w.get(), y.get())
            && same_expr(x.get(), z.get()),
        (ExprForm::Choose(u, w, x), ExprForm::Choose(v, y, z)) => same_expr(u.get(), v.get())
            && same_expr(w.get(), y.get())
            && same_expr(x.get(), z.get()),
        (
            ExprForm::Read {
                base: x,
                of_struct: i,
                field: f,
            },
            ExprForm::Read {
                base: y,
                of_struct: j,
                field: g,
            },
        ) => *i == *j && *f == *g && same_expr(x.get(), y.get()),
        (
            ExprForm::Library {
                call: k,
                argument: x,
                text: t,
            },
            ExprForm::Library {
                call: l,
                argument: y,
                text: u,
            },
        ) => *k == *l && *t == *u && same_argument(x, y),
        (ExprForm::Alloc(i), ExprForm::Alloc(j)) => *i == *j,
        (
            ExprForm::Call {
                function: i,
                arguments: es,
            },
            ExprForm::Call {
                function: j,
                arguments: ts,
            },
        ) => *i == *j && same_exprs(es.as_slice(), ts.as_slice()),
        _ => false,
    }
}

#[cycle(same)]
fn same_exprs(a: &[Expr], b: &[Expr]) -> bool
    ensures { Decides result (all_bare (exprs_view a.now) ≡ all_bare (exprs_view b.now)) }
{
    if a.len() != b.len() {
        return false;
    }
    for (index, e) in a.iter().enumerate() {
        if !same_expr(e, &b[index]) {
            return false;
        }
    }
    true
}

#[cycle(same)]
fn same_argument(a: &Option<Boxed<Expr>>, b: &Option<Boxed<Expr>>) -> bool
    ensures { Decides result (all_bare (trees_in (option_map expr_view a.now)) ≡ all_bare (trees_in (option_map expr_view b.now))) }
{
    match (a, b) {
        (None, None) => true,
        (Some(x), Some(y)) => same_expr(x.get(), y.get()),
        _ => false,
    }
}
