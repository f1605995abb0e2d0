//! The program: calls `solve` with the words after the program's name and the real files and
//! outputs, and exits with its status. All else is in `sat_top`.
#![tactic(auto)]

mod target;

ghost use Rattle.std.specs.Prelude.{codes};
ghost use Rattle.sat_top.specs.Outcomes.{Says};

use gc0_io::{Sink, write_all};
use real_devices::{Output, RealFiles, WordsFault, words_of};
use sat_top::{Status, solve};
use std::process::ExitCode;
use target::RealTarget;

fn main(rt: HostRuntime) -> ExitCode {
    let mut err = Output::new(rt.stderr());
    let words = match words_of(&rt) {
        Ok(words) => words,
        // Words that are no text make no request: the usage line answers none.
        Err(WordsFault::NotText) => Vec::new(rt.alloc()),
        Err(WordsFault::Memory) => return ExitCode::from(without_memory(&mut err).code()),
    };
    let mut files = RealFiles::new(&rt);
    let mut proof = RealTarget::new(&rt);
    let mut out = Output::new(rt.stdout());
    let status = solve(
        rt.alloc(),
        &words,
        &mut files,
        &mut proof,
        &mut out,
        &mut err,
    );
    ExitCode::from(status.code())
}

// There was not memory enough for the words: its line, and the status.
fn without_memory<E: Sink>(err: &mut E) -> Status
    ensures said { Says (E.faults err.old) (E.faults err.new) (E.taken err.old) (E.taken err.new) (codes "memory\n") Status.Memory result }
{
    match write_all(err, b"memory\n") {
        Ok(()) => Status::Memory,
        Err(_) => Status::WriteFault,
    }
}
