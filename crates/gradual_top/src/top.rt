//! The one call that does all: what is asked for, the stages of a text, and how it ended.
ghost use Rattle.std.specs.Prelude.{◌≡◌, ◌≤◌, ◌⊎◌, [], length, map, string_bytes, IfOk, IfErr};
ghost use Rattle.gc0_io.specs.Causes.{Rose};
ghost use Rattle.gc0_tree.specs.Views.{program_view};
ghost use Rattle.stack_code.specs.Built.{IsBuilt};
ghost use Rattle.std.specs.Io.KnownBytes.{append_known};
ghost use Rattle.gc0_io.specs.Bytes.{TakesFront};
ghost use Rattle.stack_code.specs.Views.{code_view};
ghost use Rattle.stack_code.specs.Machine.{run_code};
ghost use Rattle.stack_runner.specs.Built.{IsBuiltCode};
ghost use Rattle.gradual_top.specs.Lines.{parse_status, status_of};
ghost use Rattle.gradual_top.specs.Serving.{IsResolved};
ghost use Rattle.gradual_top.specs.Outcomes.{Answered, TextAnswered, IsMeant, IsExact, Ends, Says};

use crate::lines::{
    absent_text, ending_text, frame_text, lexical_text, limit_text, not_built_text, parse_text,
    type_text,
};
use crate::request::request_of;
use crate::status::Status;
use built_text::{ReadFault, built_forms, cut_ends_last, read};
use c0_grammar::one_tree;
use c0_lex::{Token, never_both, one_fault, one_list, tokens};
use c0_parse::{ParseFault, parse};
use c0_types::resolve;
use gc0_base::{Ending, Limits};
use gc0_io::{Fetched, Files, Sink, Source, write_all};
use gc0_tree::Program;
use program_limits::limit_passed;
use self_framing::check_framing;
use stack_code::{Code, generate};
use stack_runner::{Machine, RunFault, built_programs_have_built_code};
use std::alloc::{AllocError, Global};

const USAGE: &[u8] = b"usage: run, full, check, explain, code, compare or self\n";

/// Does what the words after the program's name ask for, and answers how it ended.
///
/// `run [--steps N] FILE` compiles the file with every check and runs it for at most N steps.
/// What the program writes goes to `out`, by one write as it is reached; `err` takes one line.
/// The status says how it ended. The input is not read yet.
pub fn gradual<F: Files, S: Source, O: Sink, E: Sink>(
    alloc: Global,
    words: &[String],
    files: &mut F,
    _input: &mut S,
    out: &mut O,
    err: &mut E,
) -> Status
    // Each answer has its cause, and what was written is what belongs to it.
    ensures answer { Answered (record {
      words = map string_bytes words.now;
      files = F.contents files.old;
      read_before = F.faults files.old;
      read_after = F.faults files.new;
      outputs = record { out_before = O.faults out.old; out_after = O.faults out.new; err_before = E.faults err.old; err_after = E.faults err.new; out_old = O.taken out.old; out_new = O.taken out.new; err_old = E.taken err.old; err_new = E.taken err.new };
    }) result }
    // The run theorem: the run of a file whose text has a tree writes what the tree means, and
    // nothing else.
    ensures meaning { IsMeant (record {
      words = map string_bytes words.now;
      files = F.contents files.old;
      read_before = F.faults files.old;
      read_after = F.faults files.new;
      outputs = record { out_before = O.faults out.old; out_after = O.faults out.new; err_before = E.faults err.old; err_after = E.faults err.new; out_old = O.taken out.old; out_new = O.taken out.new; err_old = E.taken err.old; err_new = E.taken err.new };
    }) result }
    // Where no device fails, a text gets exactly what it is due: its first fault, the limit that it
    // passes, or its run.
    ensures exact { IsExact (record {
      words = map string_bytes words.now;
      files = F.contents files.old;
      read_before = F.faults files.old;
      read_after = F.faults files.new;
      outputs = record { out_before = O.faults out.old; out_after = O.faults out.new; err_before = E.faults err.old; err_after = E.faults err.new; out_old = O.taken out.old; out_new = O.taken out.new; err_old = E.taken err.old; err_new = E.taken err.new };
    }) result }
    ensures reads_later { F.faults files.old ≤ F.faults files.new }
    ensures out_later { O.faults out.old ≤ O.faults out.new }
    ensures err_later { E.faults err.old ≤ E.faults err.new }
{
    one_list();
    one_fault();
    never_both();
    one_tree();
    built_text::one_fault();

    serve(alloc, words, files, out, err)
}

// What is asked for, and how it ended.
fn serve<F: Files, O: Sink, E: Sink>(
    alloc: Global,
    words: &[String],
    files: &mut F,
    out: &mut O,
    err: &mut E,
) -> Status
    ensures answer { Answered (record {
      words = map string_bytes words.now;
      files = F.contents files.old;
      read_before = F.faults files.old;
      read_after = F.faults files.new;
      outputs = record { out_before = O.faults out.old; out_after = O.faults out.new; err_before = E.faults err.old; err_after = E.faults err.new; out_old = O.taken out.old; out_new = O.taken out.new; err_old = E.taken err.old; err_new = E.taken err.new };
    }) result }
    ensures reads_later { F.faults files.old ≤ F.faults files.new }
    ensures out_later { O.faults out.old ≤ O.faults out.new }
    ensures err_later { E.faults err.old ≤ E.faults err.new }
{
    let Some(request) = request_of(words) else {
        return say(err, USAGE, Status::Usage);
    };
    let file = request.file();
    let text = match files.fetch(alloc, file, Limits::SOURCE) {
        Fetched::Found(text) => text,
        Fetched::TooLong => return say(err, b"limit source\n", Status::Limit),
        Fetched::Absent => return say_text(err, absent_text(alloc, file), Status::Absent),
        Fetched::Failed => return say(err, b"read fault\n", Status::ReadFault),
        Fetched::Memory => return say(err, b"memory\n", Status::Memory),
    };
    serve_text(alloc, text.as_slice(), request.steps(), out, err)
}

// Reads the program of a text and resolves it, or says why it can't be run.
fn serve_text<O: Sink, E: Sink>(
    alloc: Global,
    text: &[u8],
    steps: u64,
    out: &mut O,
    err: &mut E,
) -> Status
    requires short { length text.now ≤ Limits.SOURCE }
    requires few { steps ≤ Limits.STEPS }
    ensures answer { TextAnswered text.now steps (record { out_before = O.faults out.old; out_after = O.faults out.new; err_before = E.faults err.old; err_after = E.faults err.new; out_old = O.taken out.old; out_new = O.taken out.new; err_old = E.taken err.old; err_new = E.taken err.new }) result }
    ensures out_later { O.faults out.old ≤ O.faults out.new }
    ensures err_later { E.faults err.old ≤ E.faults err.new }
{
    let tokens = match tokens(alloc, text) {
        Ok(tokens) => tokens,
        Err(fault) => return say_text(err, lexical_text(alloc, fault), Status::Refused),
    };
    let parsed = match parse(alloc, &tokens) {
        Ok(parsed) => parsed,
        Err(fault) => return say_text(err, parse_text(alloc, fault), parse_status(fault)),
    };
    let program = match resolve(alloc, &parsed) {
        Ok(program) => program,
        Err(fault) => return say_text(err, type_text(alloc, fault), Status::Refused),
    };
    serve_program(alloc, text, &tokens, &program, steps, out, err)
}

// Runs a program that was resolved, or says which rule of framing it breaks, which limit it passes,
// or what of its text isn't built.
fn serve_program<O: Sink, E: Sink>(
    alloc: Global,
    text: &[u8],
    tokens: &[Token<'_>],
    program: &Program,
    steps: u64,
    out: &mut O,
    err: &mut E,
) -> Status
    requires resolved { IsResolved text.now tokens.now (program_view program.now) }
    requires few { steps ≤ Limits.STEPS }
    ensures answer { TextAnswered text.now steps (record { out_before = O.faults out.old; out_after = O.faults out.new; err_before = E.faults err.old; err_after = E.faults err.new; out_old = O.taken out.old; out_new = O.taken out.new; err_old = E.taken err.old; err_new = E.taken err.new }) result }
    ensures out_later { O.faults out.old ≤ O.faults out.new }
    ensures err_later { E.faults err.old ≤ E.faults err.new }
{
    cut_ends_last();
    built_forms();
    match check_framing(program) {
        Ok(()) => {}
        Err(fault) => return say_text(err, frame_text(alloc, fault), Status::Refused),
    }
    match limit_passed(program) {
        None => {}
        Some(limit) => return say_text(err, limit_text(alloc, program, limit), Status::Limit),
    }
    match read(alloc, tokens) {
        Ok(_) => {}
        Err(ReadFault::NotBuilt(place)) => {
            return say_text(err, not_built_text(alloc, place), Status::NotBuilt);
        }
        Err(ReadFault::Memory) => return say(err, b"memory\n", Status::Memory),
    }
    run_program(alloc, text, program, steps, out, err)
}

// Runs a program, and writes the line of its end.
fn run_program<O: Sink, E: Sink>(
    alloc: Global,
    text: &[u8],
    program: &Program,
    steps: u64,
    out: &mut O,
    err: &mut E,
) -> Status
    requires built { IsBuilt (program_view program.now) }
    requires few { steps ≤ Limits.STEPS }
    ensures ends { Ends text.now (program_view program.now) steps (record { out_before = O.faults out.old; out_after = O.faults out.new; err_before = E.faults err.old; err_after = E.faults err.new; out_old = O.taken out.old; out_new = O.taken out.new; err_old = E.taken err.old; err_new = E.taken err.new }) result }
    ensures out_later { O.faults out.old ≤ O.faults out.new }
    ensures err_later { E.faults err.old ≤ E.faults err.new }
{
    let code = match generate(alloc, program) {
        Ok(code) => code,
        Err(_) => return say(err, b"memory\n", Status::Memory),
    };
    built_programs_have_built_code();
    match run_code(alloc, &code, steps, out) {
        Ok(ending) => say_text(
            err,
            ending_text(alloc, text, program, ending),
            status_of(ending),
        ),
        Err(RunFault::Write) => say(err, b"write fault\n", Status::WriteFault),
        Err(RunFault::Memory) => say(err, b"memory\n", Status::Memory),
    }
}

// Runs a code without input, for at most so many steps.
fn run_code<O: Sink>(
    alloc: Global,
    code: &Code<'_>,
    steps: u64,
    out: &mut O,
) -> Result<Ending, RunFault>
    requires built { IsBuiltCode (code_view code.now) }
    requires few { steps ≤ Limits.STEPS }
    ensures ok { IfOk result (λ e. (O.taken out.new ≡ append_known (O.taken out.old) (run_code (code_view code.now) [] steps).0) × ((run_code (code_view code.now) [] steps).1 ≡ e)) }
    ensures front { IfErr result (λ _. TakesFront (O.taken out.old) (O.taken out.new) (run_code (code_view code.now) [] steps).0) }
    ensures cause { IfErr result (λ e. e ≡ RunFault.Write → Rose (O.faults out.old) (O.faults out.new)) }
    ensures later { O.faults out.old ≤ O.faults out.new }
{
    let mut machine = Machine::new(alloc, code, &[], steps)?;
    machine.run(out)
}

fn status_of(ending: Ending) -> Status
    ensures { result ≡ status_of ending }
{
    match ending {
        Ending::Returned(_) => Status::Returned,
        Ending::Stop(_) => Status::Stopped,
        Ending::Fault(_, _) => Status::Fault,
        Ending::StepsUsed => Status::StepsUsed,
    }
}

fn parse_status(fault: ParseFault) -> Status
    ensures { result ≡ parse_status fault }
{
    match fault {
        ParseFault::TooDeep(_) => Status::Limit,
        ParseFault::Memory => Status::Memory,
        _ => Status::Refused,
    }
}

// Writes a line, and answers with this status.
fn say<E: Sink>(err: &mut E, line: &[u8], status: Status) -> Status
    ensures said { Says (E.faults err.old) (E.faults err.new) (E.taken err.old) (E.taken err.new) line.now status result }
    ensures later { E.faults err.old ≤ E.faults err.new }
{
    match write_all(err, line) {
        Ok(()) => status,
        Err(_) => Status::WriteFault,
    }
}

// Writes a line that was made, and answers with this status; the line of memory where it was not.
fn say_text<E: Sink>(err: &mut E, line: Result<Vec<u8>, AllocError>, status: Status) -> Status
    ensures said { IfOk line (λ text. Says (E.faults err.old) (E.faults err.new) (E.taken err.old) (E.taken err.new) text.items status result) }
    ensures memory { IfErr line (λ _. (result ≡ Status.Memory) ⊎ ((result ≡ Status.WriteFault) × Rose (E.faults err.old) (E.faults err.new))) }
    ensures later { E.faults err.old ≤ E.faults err.new }
{
    match line {
        Ok(text) => say(err, &text, status),
        Err(_) => say(err, b"memory\n", Status::Memory),
    }
}
