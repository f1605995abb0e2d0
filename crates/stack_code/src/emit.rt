//! From the tree of a program to the instructions of its functions.

ghost use Rattle.std.specs.Prelude.{◌≡◌, ◌+◌, ◌<◌, ◌++◌, [], ◌∷◌, length, map, slice_get, IfOk, OnOk};
ghost use Rattle.std.specs.Option.{option_map};
ghost use Rattle.gc0_base.specs.declared.site.Kind.TheVariants as kind;
ghost use Rattle.gc0_tree.specs.Views.{expr_view, exprs_view, expr_in, trees_in, stmt_view, stmts_view, stmts_in, formula_view, note_form, function_view, program_view};
ghost use Rattle.c0_meaning.specs.Operators.{truth_word};
ghost use Rattle.c0_meaning.specs.Running.{start_site};
ghost use Rattle.stack_code.specs.Built.{IsBuilt};
ghost use Rattle.stack_code.specs.Coding.{unary_code, binary_code, callee_check, call_code, tree_code, trees_code, print_code, plain_code, return_code, stmt_code, stmts_code, body_of, bodies_from, start_check, start_code, code_of};
ghost use Rattle.stack_code.specs.Theorem.{Means};
ghost use Rattle.stack_code.specs.Instrs as instr;
ghost use Rattle.stack_code.specs.Instrs.{flip};
ghost use Rattle.gc0_tree.specs.Tree.{note_at};
ghost use Rattle.stack_code.specs.Views.{instr_view, body_view, code_view};
ghost use Rattle.stack_code.specs.Within.{IsWithin, program_of, function_of, places_of, shown, else_written, back_written};

use crate::buffer::Buffer;
use crate::instr::{Code, FunctionCode, Instr, Words};
use crate::within::Within;
use gc0_base::{Kind, Place, Site, Word};
use gc0_tree::{
    Expr, ExprForm, ExprOp, Formula, Function, LibraryCall, Note, Program, Stmt, StmtForm, UnaryOp,
};
use sqlite_items::{Boxed, Items};
use std::alloc::{AllocError, Global};

fn word_of(truth: bool) -> Word
    ensures { result.0 ≡ truth_word truth }
{
    if truth { Word(1) } else { Word(0) }
}

fn emit_unary(code: &mut Buffer<'_>, op: UnaryOp) -> Result<(), AllocError>
    ensures { OnOk result (shown code.new ≡ shown code.old ++ unary_code op) }
{
    match op {
        UnaryOp::Neg => code.push(Instr::Neg),
        UnaryOp::Flip => code.push(Instr::Flip),
        UnaryOp::Not => Ok(()),
    }
}

fn emit_opposite<'a>(code: &mut Buffer<'a>, comparison: Instr<'a>) -> Result<(), AllocError>
    ensures { OnOk result (shown code.new ≡ shown code.old ++ (instr_view comparison.entry ∷ flip ∷ [])) }
{
    code.push(comparison)?;
    code.push(Instr::Flip)
}

fn emit_binary(code: &mut Buffer<'_>, op: ExprOp) -> Result<(), AllocError>
    ensures { OnOk result (shown code.new ≡ shown code.old ++ binary_code op) }
{
    match op {
        ExprOp::Add => code.push(Instr::Add),
        ExprOp::Sub => code.push(Instr::Sub),
        ExprOp::Mul => code.push(Instr::Mul),
        ExprOp::Less => code.push(Instr::Less),
        ExprOp::LessEq => code.push(Instr::LessEq),
        ExprOp::Greater => emit_opposite(code, Instr::LessEq),
        ExprOp::GreaterEq => emit_opposite(code, Instr::Less),
        ExprOp::Equal => code.push(Instr::Equal),
        ExprOp::NotEqual => emit_opposite(code, Instr::Equal),
        ExprOp::Div
        | ExprOp::Rem
        | ExprOp::Shl
        | ExprOp::Shr
        | ExprOp::And
        | ExprOp::Or
        | ExprOp::Xor => Ok(()),
    }
}

// The check of what a callee requires of its arguments.
fn emit_callee_check<'a>(
    code: &mut Buffer<'a>,
    program: &'a Program,
    function: u32,
    site: Site,
) -> Result<(), AllocError>
    ensures { OnOk result (shown code.new ≡ shown code.old ++ callee_check site (slice_get (program_view program.entry.now).functions function)) }
{
    match program.functions.get(function as usize) {
        None => Ok(()),
        Some(callee) => code.push(Instr::CheckWhole {
            site,
            formula: &callee.before,
            words: Words::Arguments(callee.params as usize),
        }),
    }
}

// A call behind its arguments.
fn emit_call<'a>(
    code: &mut Buffer<'a>,
    within: &Within<'a>,
    place: Place,
    function: u32,
) -> Result<(), AllocError>
    requires { IsWithin within.now }
    ensures { OnOk result (shown code.new ≡ shown code.old ++ call_code (program_of within.now) (places_of within.now) place function) }
{
    let site = within.call_site(place);
    code.push(Instr::Step)?;
    emit_callee_check(code, within.program, function, site)?;
    code.push(Instr::Call(function as usize))
}

#[cycle(emit_expr)]
fn emit_expr<'a>(code: &mut Buffer<'a>, within: &Within<'a>, e: &Expr) -> Result<(), AllocError>
    requires { IsWithin within.now }
    ensures { OnOk result (shown code.new ≡ shown code.old ++ tree_code (program_of within.now) (places_of within.now) (expr_view e.now)) }
{
    match &e.form {
        ExprForm::Number(word) => code.push(Instr::Push(*word)),
        ExprForm::Truth(truth) => code.push(Instr::Push(word_of(*truth))),
        ExprForm::Null => Ok(()),
        ExprForm::Local(local) => code.push(Instr::Load(*local as usize)),
        ExprForm::ResultValue => Ok(()),
        ExprForm::Unary(op, a) => {
            emit_expr(code, within, a.get())?;
            emit_unary(code, *op)
        }
        ExprForm::Binary(op, a, b) => {
            emit_expr(code, within, a.get())?;
            emit_expr(code, within, b.get())?;
            emit_binary(code, *op)
        }
        ExprForm::Both(_, _) => Ok(()),
        ExprForm::Either(_, _) => Ok(()),
        ExprForm::Choose(_, _, _) => Ok(()),
        ExprForm::Read {
            base: _,
            of_struct: _,
            field: _,
        } => Ok(()),
        ExprForm::Call {
            function,
            arguments,
        } => {
            emit_exprs(code, within, arguments.as_slice())?;
            emit_call(code, within, e.place, *function)
        }
        ExprForm::Library {
            call: _,
            argument: _,
            text: _,
        } => Ok(()),
        ExprForm::Alloc(_) => Ok(()),
    }
}

#[cycle(emit_expr)]
fn emit_exprs<'a>(code: &mut Buffer<'a>, within: &Within<'a>, es: &[Expr]) -> Result<(), AllocError>
    requires { IsWithin within.now }
    ensures { OnOk result (shown code.new ≡ shown code.old ++ trees_code (program_of within.now) (places_of within.now) (exprs_view es.now)) }
{
    for e in es {
        emit_expr(code, within, e)?;
    }
    Ok(())
}

fn emit_argument<'a>(
    code: &mut Buffer<'a>,
    within: &Within<'a>,
    argument: &Option<Boxed<Expr>>,
) -> Result<(), AllocError>
    requires { IsWithin within.now }
    ensures { OnOk result (shown code.new ≡ shown code.old ++ trees_code (program_of within.now) (places_of within.now) (trees_in (option_map expr_view argument.now))) }
{
    match argument {
        None => Ok(()),
        Some(e) => emit_expr(code, within, e.get()),
    }
}

fn emit_value<'a>(
    code: &mut Buffer<'a>,
    within: &Within<'a>,
    value: &Option<Expr>,
) -> Result<(), AllocError>
    requires { IsWithin within.now }
    ensures { OnOk result (shown code.new ≡ shown code.old ++ trees_code (program_of within.now) (places_of within.now) (expr_in value.now)) }
{
    match value {
        None => Ok(()),
        Some(e) => emit_expr(code, within, e),
    }
}

fn emit_print(code: &mut Buffer<'_>, call: LibraryCall) -> Result<(), AllocError>
    ensures { OnOk result (shown code.new ≡ shown code.old ++ print_code call) }
{
    match call {
        LibraryCall::PrintInt => code.push(Instr::PrintInt),
        LibraryCall::PrintBool => code.push(Instr::PrintBool),
        LibraryCall::Print | LibraryCall::PrintLine | LibraryCall::ReadInt | LibraryCall::MoreInt =>
            Ok(()),
    }
}

// An expression statement, behind its step.
fn emit_plain<'a>(code: &mut Buffer<'a>, within: &Within<'a>, e: &Expr) -> Result<(), AllocError>
    requires { IsWithin within.now }
    ensures { OnOk result (shown code.new ≡ shown code.old ++ plain_code (program_of within.now) (places_of within.now) (expr_view e.now)) }
{
    match &e.form {
        ExprForm::Library {
            call,
            argument,
            text: _,
        } => {
            emit_argument(code, within, argument)?;
            code.push(Instr::Step)?;
            emit_print(code, *call)
        }
        _ => {
            emit_expr(code, within, e)?;
            code.push(Instr::Drop)
        }
    }
}

fn emit_declared<'a>(
    code: &mut Buffer<'a>,
    within: &Within<'a>,
    local: u32,
    value: &Option<Expr>,
) -> Result<(), AllocError>
    requires { IsWithin within.now }
    ensures { OnOk result (shown code.new ≡ shown code.old ++ (instr.step ∷ (trees_code (program_of within.now) (places_of within.now) (expr_in value.now) ++ (instr.save local ∷ [])))) }
{
    code.push(Instr::Step)?;
    emit_value(code, within, value)?;
    code.push(Instr::Save(local as usize))
}

fn emit_assigned<'a>(
    code: &mut Buffer<'a>,
    within: &Within<'a>,
    local: u32,
    value: &Expr,
) -> Result<(), AllocError>
    requires { IsWithin within.now }
    ensures { OnOk result (shown code.new ≡ shown code.old ++ (instr.step ∷ (tree_code (program_of within.now) (places_of within.now) (expr_view value.now) ++ (instr.save local ∷ [])))) }
{
    code.push(Instr::Step)?;
    emit_expr(code, within, value)?;
    code.push(Instr::Save(local as usize))
}

fn emit_stepped<'a>(code: &mut Buffer<'a>, within: &Within<'a>, e: &Expr) -> Result<(), AllocError>
    requires { IsWithin within.now }
    ensures { OnOk result (shown code.new ≡ shown code.old ++ (instr.step ∷ plain_code (program_of within.now) (places_of within.now) (expr_view e.now))) }
{
    code.push(Instr::Step)?;
    emit_plain(code, within, e)
}

fn emit_return<'a>(
    code: &mut Buffer<'a>,
    within: &Within<'a>,
    place: Place,
    value: &Option<Expr>,
) -> Result<(), AllocError>
    requires { IsWithin within.now }
    ensures { OnOk result (shown code.new ≡ shown code.old ++ (instr.step ∷ (trees_code (program_of within.now) (places_of within.now) (expr_in value.now) ++ return_code (function_of within.now) (places_of within.now) place))) }
{
    let site = within.return_site(place);
    let words = Words::WithResult(within.function.params as usize);
    code.push(Instr::Step)?;
    emit_value(code, within, value)?;
    code.push(Instr::CheckWhole {
        site,
        formula: &within.function.after,
        words,
    })?;
    code.push(Instr::Return)
}

fn emit_note<'a>(
    code: &mut Buffer<'a>,
    within: &Within<'a>,
    place: Place,
    note: &'a Note,
    from: usize,
) -> Result<(), AllocError>
    requires { IsWithin within.now }
    ensures { OnOk result (shown code.new ≡ shown code.old ++ stmt_code (program_of within.now) (function_of within.now) (places_of within.now) from (note_form note.entry.now place)) }
{
    match note {
        Note::Assert(formula) => {
            let site = within.assert_site(place);
            code.push(Instr::CheckWhole {
                site,
                formula,
                words: Words::Locals,
            })
        }
        Note::Fold(_) => Ok(()),
        Note::Unfold(_) => Ok(()),
    }
}

// A loop up to its first head: its step, and the check of its invariant.
fn emit_head<'a>(
    code: &mut Buffer<'a>,
    within: &Within<'a>,
    place: Place,
    invariant: &'a Formula,
) -> Result<(), AllocError>
    requires { IsWithin within.now }
    ensures { OnOk result (shown code.new ≡ shown code.old ++ (instr.step ∷ instr.checkwhole (places_of within.now kind.Entry place) (formula_view invariant.entry.now) instr.locals ∷ [])) }
{
    let site = within.entry_site(place);
    code.push(Instr::Step)?;
    code.push(Instr::CheckWhole {
        site,
        formula: invariant,
        words: Words::Locals,
    })
}

// A step and a test, and a jump whose target is set later. Gives the number of the jump.
fn emit_test<'a>(
    code: &mut Buffer<'a>,
    within: &Within<'a>,
    test: &Expr,
) -> Result<usize, AllocError>
    requires { IsWithin within.now }
    ensures hole { IfOk result (λ hole. hole ≡ length (shown code.old ++ (instr.step ∷ tree_code (program_of within.now) (places_of within.now) (expr_view test.now)))) }
    ensures code { OnOk result (shown code.new ≡ (shown code.old ++ (instr.step ∷ tree_code (program_of within.now) (places_of within.now) (expr_view test.now))) ++ instr.jumpfalse 0 ∷ []) }
{
    code.push(Instr::Step)?;
    emit_expr(code, within, test)?;
    let hole = code.len();
    code.push(Instr::JumpFalse(0))?;
    Ok(hole)
}

// Behind the body of a loop: the check at the next head, the jump back, and the target of the test.
fn emit_back<'a>(
    code: &mut Buffer<'a>,
    within: &Within<'a>,
    place: Place,
    invariant: &'a Formula,
    from: usize,
    hole: usize,
) -> Result<(), AllocError>
    requires { IsWithin within.now }
    ensures { OnOk result (shown code.new ≡ back_written (shown code.old) (instr.checkwhole (places_of within.now kind.Again place) (formula_view invariant.entry.now) instr.locals) from hole) }
{
    let site = within.again_site(place);
    code.push(Instr::CheckWhole {
        site,
        formula: invariant,
        words: Words::Locals,
    })?;
    code.push(Instr::Jump(from))?;
    let end = code.len();
    code.set(hole, Instr::JumpFalse(end));
    Ok(())
}

#[cycle(emit_stmt)]
fn emit_stmt<'a>(code: &mut Buffer<'a>, within: &Within<'a>, s: &'a Stmt) -> Result<(), AllocError>
    requires { IsWithin within.now }
    ensures { OnOk result (shown code.new ≡ shown code.old ++ stmt_code (program_of within.now) (function_of within.now) (places_of within.now) (length (shown code.old)) (stmt_view s.entry.now)) }
{
    match &s.form {
        StmtForm::Declare { local, value } => emit_declared(code, within, *local, value),
        StmtForm::Assign {
            local,
            op: _,
            op_place: _,
            value,
        } => emit_assigned(code, within, *local, value),
        StmtForm::Write {
            base: _,
            of_struct: _,
            field: _,
            arrow: _,
            op: _,
            op_place: _,
            value: _,
        } => Ok(()),
        StmtForm::Plain(e) => emit_stepped(code, within, e),
        StmtForm::Block(ss) => emit_stmts(code, within, ss.as_slice()),
        StmtForm::If { condition, yes, no } => {
            let hole = emit_test(code, within, condition)?;
            emit_stmt(code, within, yes.get())?;
            emit_else(code, within, no, hole)
        }
        StmtForm::While {
            invariant,
            test,
            body,
        } => {
            emit_head(code, within, s.place, invariant)?;
            let from = code.len();
            let hole = emit_test(code, within, test)?;
            emit_stmt(code, within, body.get())?;
            emit_back(code, within, s.place, invariant, from, hole)
        }
        StmtForm::For {
            first: _,
            test: _,
            last: _,
            invariant: _,
            body: _,
        } => Ok(()),
        StmtForm::Return(value) => emit_return(code, within, s.place, value),
        StmtForm::Assert(_) => Ok(()),
        StmtForm::Raise(_) => Ok(()),
        StmtForm::Note(note) => emit_note(code, within, s.place, note, code.len()),
    }
}

#[cycle(emit_stmt)]
fn emit_else<'a>(
    code: &mut Buffer<'a>,
    within: &Within<'a>,
    no: &'a Option<Boxed<Stmt>>,
    hole: usize,
) -> Result<(), AllocError>
    requires { IsWithin within.now }
    ensures { OnOk result (shown code.new ≡ else_written within.now (shown code.old) hole (stmts_in (option_map stmt_view no.entry.now))) }
{
    match no {
        None => {
            let end = code.len();
            code.set(hole, Instr::JumpFalse(end));
            Ok(())
        }
        Some(s) => {
            let first_end = code.len();
            code.push(Instr::Jump(0))?;
            let start = code.len();
            code.set(hole, Instr::JumpFalse(start));
            emit_stmt(code, within, s.get())?;
            let end = code.len();
            code.set(first_end, Instr::Jump(end));
            Ok(())
        }
    }
}

#[cycle(emit_stmt)]
fn emit_stmts<'a>(
    code: &mut Buffer<'a>,
    within: &Within<'a>,
    ss: &'a [Stmt],
) -> Result<(), AllocError>
    requires { IsWithin within.now }
    ensures { OnOk result (shown code.new ≡ shown code.old ++ stmts_code (program_of within.now) (function_of within.now) (places_of within.now) (length (shown code.old)) (stmts_view ss.entry.now)) }
{
    for s in ss {
        emit_stmt(code, within, s)?;
    }
    Ok(())
}

fn function_code<'a>(
    alloc: Global,
    program: &'a Program,
    function: &'a Function,
    number: u32,
) -> Result<FunctionCode<'a>, AllocError>
    ensures { IfOk result (λ f. body_view f ≡ body_of (program_view program.entry.now) number (function_view function.entry.now)) }
{
    let within = Within::new(alloc, program, function, number)?;
    let mut code = Buffer::new(alloc);
    emit_stmts(&mut code, &within, function.body.as_slice())?;
    Ok(FunctionCode {
        params: function.params as usize,
        locals: function.locals.len(),
        instrs: code.into_items(),
    })
}

// The code of the functions, in their order.
fn function_codes<'a>(
    alloc: Global,
    program: &'a Program,
) -> Result<Items<FunctionCode<'a>>, AllocError>
    ensures { IfOk result (λ fs. map body_view fs ≡ bodies_from (program_view program.entry.now) 0 (map function_view program.entry.now.functions)) }
{
    let mut codes: Items<FunctionCode<'a>> = Items::new(alloc);
    let mut number: u32 = 0;
    for function in program.functions.as_slice() {
        codes.push(function_code(alloc, program, function, number)?)?;
        if number == u32::MAX {
            return Err(AllocError);
        }
        number += 1;
    }
    Ok(codes)
}

// The code with which a run starts: the precondition of `main`, and a call of it.
fn start_of<'a>(alloc: Global, program: &'a Program) -> Result<FunctionCode<'a>, AllocError>
    ensures { IfOk result (λ f. body_view f ≡ start_code (program_view program.entry.now)) }
{
    let mut code = Buffer::new(alloc);
    let site = Site {
        function: program.main,
        kind: Kind::Start,
        ordinal: 0,
    };
    emit_start_check(&mut code, program, site)?;
    code.push(Instr::Call(program.main as usize))?;
    code.push(Instr::Return)?;
    Ok(FunctionCode {
        params: 0,
        locals: 0,
        instrs: code.into_items(),
    })
}

fn emit_start_check<'a>(
    code: &mut Buffer<'a>,
    program: &'a Program,
    site: Site,
) -> Result<(), AllocError>
    ensures { OnOk result (shown code.new ≡ shown code.old ++ start_check site (slice_get (program_view program.entry.now).functions program.entry.now.main)) }
{
    match program.functions.get(program.main as usize) {
        None => Ok(()),
        Some(callee) => code.push(Instr::CheckWhole {
            site,
            formula: &callee.before,
            words: Words::Locals,
        }),
    }
}

/// The code of a program, with every check compiled in.
///
/// Forms that the machine cannot run yet have no code; the programs that have none of them are
/// those that the condition names. Only want of memory is refused.
pub fn generate<'a>(alloc: Global, program: &'a Program) -> Result<Code<'a>, AllocError>
    requires { IsBuilt (program_view program.now) }

    // The instructions of each function, and those with which a run starts.
    ensures code { IfOk result (λ code. code_view code ≡ code_of (program_view program.entry.now)) }

    // A run of the code shows what the program means, for every input and every number of steps.
    ensures meaning { IfOk result (λ code. Means (code_view code) (program_view program.entry.now)) }
{
    let functions = function_codes(alloc, program)?;
    let start = start_of(alloc, program)?;
    Ok(Code {
        program,
        functions,
        start,
    })
}
