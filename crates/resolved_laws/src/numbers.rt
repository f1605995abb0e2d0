//! That each number of a program in memory is a word.

ghost use Rattle.std.specs.Prelude.{◌≡◌, true, All, IsTrue};
ghost use Rattle.std.specs.Option.{option_map};
ghost use Rattle.gc0_tree.specs.Views.{expr_view, exprs_view, expr_in, trees_in, stmt_view, stmts_view, stmts_in, function_view, program_view};
ghost use Rattle.lowering_laws.specs.Words.{tree_words, trees_words, WordsFit};
ghost use Rattle.resolved_laws.specs.Operators.{OperatorsGive};
ghost use Rattle.resolved_laws.specs.Numbers.{is_word, stmt_numbers, stmts_numbers, NumbersFit};

use gc0_base::Word;
use gc0_tree::{Expr, ExprForm, Function, Program, Stmt, StmtForm};
use sqlite_items::Boxed;

/// Each number in the bodies of a program in memory is below 2^32. Visits the bodies, and does
/// nothing else. That each operator of `op=` gives an int is `resolved_operators`.
pub fn numbers_are_words(program: &Program)
    requires { All OperatorsGive (program_view program.now).functions }
    ensures { All WordsFit (program_view program.now).functions }
{
    see_functions(program.functions.as_slice());
}

fn see_functions(functions: &[Function])
    ensures { All (λ f. NumbersFit (function_view f)) functions.now }
{
    for function in functions {
        see_function(function);
    }
}

fn see_function(function: &Function)
    ensures { stmts_numbers (function_view function.now).body ≡ true }
{
    see_stmts(function.body.as_slice());
}

fn see_word(word: Word)
    ensures { is_word word.0 ≡ true }
{
    let _number = word.0;
}

#[cycle(seen_exprs)]
fn see_expr(e: &Expr)
    ensures { tree_words (expr_view e.now) ≡ true }
{
    match &e.form {
        ExprForm::Number(word) => see_word(*word),
        ExprForm::Truth(_) => {}
        ExprForm::Null => {}
        ExprForm::Local(_) => {}
        ExprForm::ResultValue => {}
        ExprForm::Unary(_, a) => see_expr(a.get()),
        ExprForm::Binary(_, a, b) => {
            see_expr(a.get());
            see_expr(b.get())
        }
        ExprForm::Both(a, b) => {
            see_expr(a.get());
            see_expr(b.get())
        }
        ExprForm::Either(a, b) => {
            see_expr(a.get());
            see_expr(b.get())
        }
        ExprForm::Choose(a, b, c) => {
            see_expr(a.get());
            see_expr(b.get());
            see_expr(c.get())
        }
        ExprForm::Read {
            base,
            of_struct: _,
            field: _,
        } => see_expr(base.get()),
        ExprForm::Call {
            function: _,
            arguments,
        } => see_exprs(arguments.as_slice()),
        ExprForm::Library {
            call: _,
            argument,
            text: _,
        } => see_argument(argument),
        ExprForm::Alloc(_) => {}
    }
}

#[cycle(seen_exprs)]
fn see_exprs(es: &[Expr])
    ensures { trees_words (exprs_view es.now) ≡ true }
{
    for e in es {
        see_expr(e);
    }
}

#[cycle(seen_exprs)]
fn see_argument(argument: &Option<Boxed<Expr>>)
    ensures { trees_words (trees_in (option_map expr_view argument.now)) ≡ true }
{
    match argument {
        None => {}
        Some(e) => see_expr(e.get()),
    }
}

fn see_value(value: &Option<Expr>)
    ensures { trees_words (expr_in value.now) ≡ true }
{
    match value {
        None => {}
        Some(e) => see_expr(e),
    }
}

#[cycle(seen_stmts)]
fn see_stmt(s: &Stmt)
    ensures { stmt_numbers (stmt_view s.now) ≡ true }
{
    match &s.form {
        StmtForm::Declare { local: _, value } => see_value(value),
        StmtForm::Assign {
            local: _,
            op: _,
            op_place: _,
            value,
        } => see_expr(value),
        StmtForm::Write {
            base,
            of_struct: _,
            field: _,
            arrow: _,
            op: _,
            op_place: _,
            value,
        } => {
            see_expr(base);
            see_expr(value)
        }
        StmtForm::Plain(e) => see_expr(e),
        StmtForm::Block(ss) => see_stmts(ss.as_slice()),
        StmtForm::If { condition, yes, no } => {
            see_expr(condition);
            see_stmt(yes.get());
            see_part(no)
        }
        StmtForm::While {
            invariant: _,
            test,
            body,
        } => {
            see_expr(test);
            see_stmt(body.get())
        }
        StmtForm::For {
            first,
            test,
            last,
            invariant: _,
            body,
        } => {
            see_part(first);
            see_expr(test);
            see_part(last);
            see_stmt(body.get())
        }
        StmtForm::Return(value) => see_value(value),
        StmtForm::Assert(e) => see_expr(e),
        StmtForm::Raise(_) => {}
        StmtForm::Note(_) => {}
    }
}

#[cycle(seen_stmts)]
fn see_stmts(ss: &[Stmt])
    ensures { stmts_numbers (stmts_view ss.now) ≡ true }
{
    for s in ss {
        see_stmt(s);
    }
}

#[cycle(seen_stmts)]
fn see_part(part: &Option<Boxed<Stmt>>)
    ensures { stmts_numbers (stmts_in (option_map stmt_view part.now)) ≡ true }
{
    match part {
        None => {}
        Some(s) => see_stmt(s.get()),
    }
}
