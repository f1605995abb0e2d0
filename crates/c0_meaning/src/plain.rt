//! Which functions are plain: no `?` stands in them, nor in a function that they reach by calls.

ghost use Rattle.std.specs.Prelude.{◌≡◌, ◌≤◌, ℕ, ◌||◌, Decides, eqb, length};
ghost use Rattle.std.specs.Option.{option_map};
ghost use Rattle.gc0_base.specs.declared.limits.TheConstants.Limits as limits;
ghost use Rattle.gc0_tree.specs.Views.{expr_view, exprs_view, expr_in, trees_in, stmt_view, stmts_view, stmts_in, note_form, function_view, program_view};
ghost use Rattle.c0_meaning.specs.Precision.{tree_calls, trees_call, stmt_calls, stmts_call, has_open, any_open, is_open, IsPlain};
ghost use Rattle.c0_meaning.specs.Marking.{has, Follows};

use gc0_tree::{Expr, ExprForm, Formula, Function, Note, Program, Stmt, StmtForm};
use sqlite_items::Boxed;

// The functions that were reached: whether each was, and all of them in the order in which they
// were. Each is in the queue once, so that the queue has room.
#[derive(Drop)]
struct Reached {
    marked: [bool; 512],
    queue: [u32; 512],
    count: usize,
}

impl Reached {
    // A function past the last number is not there, and is passed over.
    fn mark(&mut self, function: u32)
        ensures follows { Follows self.old self.new }
        ensures marked { (g : ℕ) → has self.new g ≡ (has self.old g || eqb function g) }
    {
        let index = function as usize;
        if index < 512 && !self.marked[index] {
            self.marked[index] = true;
            if self.count < 512 {
                self.queue[self.count] = function;
                self.count += 1;
            }
        }
    }
}

/// Whether no `?` stands in a function's clauses, invariants or asserts, nor in those of any
/// function that it reaches by calls. A number past the functions has nothing that is open. Takes
/// no memory.
pub fn is_plain(program: &Program, function: u32) -> bool
    requires { length (program_view program.now).functions ≤ limits.FUNCTIONS }
    ensures { Decides result (IsPlain (program_view program.now) function) }
{
    let mut reached = Reached {
        marked: [false; 512],
        queue: [0; 512],
        count: 0,
    };
    reached.mark(function);
    let mut next = 0;
    while next < reached.count {
        let index = reached.queue[next] as usize;
        next += 1;
        if let Some(callee) = program.functions.get(index) {
            if is_open(callee) {
                return false;
            }
            mark_stmts(&mut reached, callee.body.as_slice());
        }
    }
    true
}

// Whether a `?` stands in its clauses, invariants or asserts.
fn is_open(function: &Function) -> bool
    ensures { result ≡ is_open (function_view function.now) }
{
    function.before.imprecise
        || function.after.imprecise
        || stmts_are_open(function.body.as_slice())
}

#[cycle(open_stmts)]
fn stmts_are_open(ss: &[Stmt]) -> bool
    ensures { result ≡ any_open (stmts_view ss.now) }
{
    for s in ss {
        if stmt_is_open(s) {
            return true;
        }
    }
    false
}

#[cycle(open_stmts)]
fn stmt_is_open(s: &Stmt) -> bool
    ensures { result ≡ has_open (stmt_view s.now) }
{
    match &s.form {
        StmtForm::Block(ss) => stmts_are_open(ss.as_slice()),
        StmtForm::If {
            condition: _,
            yes,
            no,
        } => stmt_is_open(yes.get()) || part_is_open(no),
        StmtForm::While {
            invariant,
            test: _,
            body,
        } => invariant.imprecise || stmt_is_open(body.get()),
        StmtForm::For {
            first,
            test: _,
            last,
            invariant,
            body,
        } => {
            invariant.imprecise
                || part_is_open(first)
                || part_is_open(last)
                || stmt_is_open(body.get())
        }
        StmtForm::Note(Note::Assert(formula)) => formula.imprecise,
        _ => false,
    }
}

#[cycle(open_stmts)]
fn part_is_open(part: &Option<Boxed<Stmt>>) -> bool
    ensures { result ≡ any_open (stmts_in (option_map stmt_view part.now)) }
{
    match part {
        None => false,
        Some(s) => stmt_is_open(s.get()),
    }
}

#[cycle(called_exprs)]
fn mark_expr(reached: &mut Reached, e: &Expr)
    ensures follows { Follows reached.old reached.new }
    ensures marked { (g : ℕ) → has reached.new g ≡ (has reached.old g || tree_calls g (expr_view e.now)) }
{
    match &e.form {
        ExprForm::Number(_) => {}
        ExprForm::Truth(_) => {}
        ExprForm::Null => {}
        ExprForm::Local(_) => {}
        ExprForm::ResultValue => {}
        ExprForm::Unary(_, a) => mark_expr(reached, a.get()),
        ExprForm::Binary(_, a, b) => {
            mark_expr(reached, a.get());
            mark_expr(reached, b.get())
        }
        ExprForm::Both(a, b) => {
            mark_expr(reached, a.get());
            mark_expr(reached, b.get())
        }
        ExprForm::Either(a, b) => {
            mark_expr(reached, a.get());
            mark_expr(reached, b.get())
        }
        ExprForm::Choose(a, b, c) => {
            mark_expr(reached, a.get());
            mark_expr(reached, b.get());
            mark_expr(reached, c.get())
        }
        ExprForm::Read {
            base,
            of_struct: _,
            field: _,
        } => mark_expr(reached, base.get()),
        ExprForm::Call {
            function,
            arguments,
        } => {
            reached.mark(*function);
            mark_exprs(reached, arguments.as_slice())
        }
        ExprForm::Library {
            call: _,
            argument,
            text: _,
        } => mark_argument(reached, argument),
        ExprForm::Alloc(_) => {}
    }
}

#[cycle(called_exprs)]
fn mark_exprs(reached: &mut Reached, es: &[Expr])
    ensures follows { Follows reached.old reached.new }
    ensures marked { (g : ℕ) → has reached.new g ≡ (has reached.old g || trees_call g (exprs_view es.now)) }
{
    for e in es {
        mark_expr(reached, e);
    }
}

#[cycle(called_exprs)]
fn mark_argument(reached: &mut Reached, argument: &Option<Boxed<Expr>>)
    ensures follows { Follows reached.old reached.new }
    ensures marked { (g : ℕ) → has reached.new g ≡ (has reached.old g || trees_call g (trees_in (option_map expr_view argument.now))) }
{
    match argument {
        None => {}
        Some(e) => mark_expr(reached, e.get()),
    }
}

fn mark_value(reached: &mut Reached, value: &Option<Expr>)
    ensures follows { Follows reached.old reached.new }
    ensures marked { (g : ℕ) → has reached.new g ≡ (has reached.old g || trees_call g (expr_in value.now)) }
{
    match value {
        None => {}
        Some(e) => mark_expr(reached, e),
    }
}

#[cycle(called_stmts)]
fn mark_stmt(reached: &mut Reached, s: &Stmt)
    ensures follows { Follows reached.old reached.new }
    ensures marked { (g : ℕ) → has reached.new g ≡ (has reached.old g || stmt_calls g (stmt_view s.now)) }
{
    match &s.form {
        StmtForm::Declare { local: _, value } => mark_value(reached, value),
        StmtForm::Assign {
            local: _,
            op: _,
            op_place: _,
            value,
        } => mark_expr(reached, value),
        StmtForm::Write {
            base,
            of_struct: _,
            field: _,
            arrow: _,
            op: _,
            op_place: _,
            value,
        } => {
            mark_expr(reached, base);
            mark_expr(reached, value)
        }
        StmtForm::Plain(e) => mark_expr(reached, e),
        StmtForm::Block(ss) => mark_stmts(reached, ss.as_slice()),
        StmtForm::If { condition, yes, no } => {
            mark_expr(reached, condition);
            mark_stmt(reached, yes.get());
            mark_part(reached, no)
        }
        StmtForm::While {
            invariant: _,
            test,
            body,
        } => {
            mark_expr(reached, test);
            mark_stmt(reached, body.get())
        }
        StmtForm::For {
            first,
            test,
            last,
            invariant: _,
            body,
        } => {
            mark_part(reached, first);
            mark_expr(reached, test);
            mark_part(reached, last);
            mark_stmt(reached, body.get())
        }
        StmtForm::Return(value) => mark_value(reached, value),
        StmtForm::Assert(e) => mark_expr(reached, e),
        StmtForm::Raise(_) => {}
        StmtForm::Note(_) => {}
    }
}

#[cycle(called_stmts)]
fn mark_stmts(reached: &mut Reached, ss: &[Stmt])
    ensures follows { Follows reached.old reached.new }
    ensures marked { (g : ℕ) → has reached.new g ≡ (has reached.old g || stmts_call g (stmts_view ss.now)) }
{
    for s in ss {
        mark_stmt(reached, s);
    }
}

#[cycle(called_stmts)]
fn mark_part(reached: &mut Reached, part: &Option<Boxed<Stmt>>)
    ensures follows { Follows reached.old reached.new }
    ensures marked { (g : ℕ) → has reached.new g ≡ (has reached.old g || stmts_call g (stmts_in (option_map stmt_view part.now))) }
{
    match part {
        None => {}
        Some(s) => mark_stmt(reached, s.get()),
    }
}
