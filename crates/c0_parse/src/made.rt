//! Statements made of their parts.

ghost use Rattle.std.specs.Prelude.{◌≡◌, None, Some, map};
ghost use Rattle.std.specs.Option.{option_map};
ghost use Rattle.parsed_tree.specs.Tree.{no_stmts, stmt_and, simple_stmt, block_stmt, if_stmt, while_stmt, for_stmt, return_stmt, assert_stmt, error_stmt};
ghost use Rattle.parsed_tree.specs.Views.{expr_view, simple_view, invariants_view, stmt_view, stmts_view};

use crate::loops::Inner;
use gc0_base::Place;
use parsed_tree::{Expr, Simple, Stmt, Text};
use sqlite_items::{Boxed, Items};

pub fn simple_statement(simple: Boxed<Simple>) -> Stmt
    ensures { stmt_view result ≡ simple_stmt (simple_view simple) }
{
    Stmt::Simple(simple.into_inner())
}

pub fn block(place: Place, body: Items<Stmt>) -> Stmt
    ensures { stmt_view result ≡ block_stmt place (stmts_view body) }
{
    Stmt::Block { place, body }
}

pub fn when(place: Place, test: Boxed<Expr>, yes: Boxed<Stmt>) -> Stmt
    ensures { stmt_view result ≡ if_stmt place (expr_view test) (stmt_view yes) no_stmts }
{
    Stmt::If {
        place,
        test: test.into_inner(),
        yes,
        no: None,
    }
}

pub fn when_else(place: Place, test: Boxed<Expr>, yes: Boxed<Stmt>, no: Boxed<Stmt>) -> Stmt
    ensures { stmt_view result ≡ if_stmt place (expr_view test) (stmt_view yes) (stmt_and (stmt_view no) no_stmts) }
{
    Stmt::If {
        place,
        test: test.into_inner(),
        yes,
        no: Some(no),
    }
}

pub fn while_loop(place: Place, test: Boxed<Expr>, inner: Inner) -> Stmt
    ensures { stmt_view result ≡ while_stmt place (expr_view test) (map invariants_view inner.invariants) (stmt_view inner.body) }
{
    Stmt::While {
        place,
        test: test.into_inner(),
        invariants: inner.invariants,
        body: inner.body,
    }
}

pub fn for_loop(
    place: Place,
    first: Option<Boxed<Simple>>,
    test: Boxed<Expr>,
    last: Option<Boxed<Simple>>,
    inner: Inner,
) -> Stmt
    ensures { stmt_view result ≡ for_stmt place (option_map simple_view first) (expr_view test) (option_map simple_view last) (map invariants_view inner.invariants) (stmt_view inner.body) }
{
    Stmt::For {
        place,
        first,
        test: test.into_inner(),
        last,
        invariants: inner.invariants,
        body: inner.body,
    }
}

pub fn return_none(place: Place) -> Stmt
    ensures { stmt_view result ≡ return_stmt place None }
{
    Stmt::Return { place, value: None }
}

pub fn return_value(place: Place, value: Boxed<Expr>) -> Stmt
    ensures { stmt_view result ≡ return_stmt place (Some (expr_view value)) }
{
    Stmt::Return {
        place,
        value: Some(value.into_inner()),
    }
}

pub fn assertion(place: Place, test: Boxed<Expr>) -> Stmt
    ensures { stmt_view result ≡ assert_stmt place (expr_view test) }
{
    Stmt::Assert {
        place,
        test: test.into_inner(),
    }
}

pub fn error_stop(place: Place, text: Text) -> Stmt
    ensures { stmt_view result ≡ error_stmt place text }
{
    Stmt::Error { place, text }
}
