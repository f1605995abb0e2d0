//! Measures how long a program takes to lower: `core_bench ROUNDS FILE`.
//!
//! It prints the numbers of the program's functions and of their decisions, and the least
//! processor time of so many rounds of the lowering, in nanoseconds.
#![tactic(auto)]

mod rounds;
mod trouble;

use gc0_base::Limits;
use gc0_io::{Fetched, Files, write_all};
use real_devices::{Output, RealFiles, words_of};
use rounds::{measured, program_of};
use std::process::ExitCode;
use trouble::Trouble;

fn main(rt: HostRuntime) -> ExitCode {
    match answer(&rt) {
        Ok(line) => said(&mut Output::new(rt.stdout()), &line, 0),
        Err(trouble) => said(&mut Output::new(rt.stderr()), trouble.line(), 1),
    }
}

// Writes a line and exits.
fn said<O: gc0_io::Sink>(out: &mut O, line: &[u8], code: u8) -> ExitCode {
    match write_all(out, line) {
        Ok(()) => ExitCode::from(code),
        Err(_) => ExitCode::from(2),
    }
}

// What is asked for.
fn answer(rt: &HostRuntime) -> Result<Vec<u8>, Trouble> {
    let Ok(words) = words_of(rt) else {
        return Err(Trouble::Usage);
    };
    let [rounds, name] = words.as_slice() else {
        return Err(Trouble::Usage);
    };
    let Ok(rounds) = rounds.parse::<u32>() else {
        return Err(Trouble::Usage);
    };
    let mut files = RealFiles::new(rt);
    match files.fetch(rt.alloc(), name.as_str(), Limits::SOURCE) {
        Fetched::Found(text) => {
            let program = program_of(rt.alloc(), text.as_slice())?;
            measured(rt, &program, rounds)
        }
        _ => Err(Trouble::Absent),
    }
}
