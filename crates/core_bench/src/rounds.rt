//! The rounds of a measurement.

ghost use Rattle.std.specs.Prelude.{◌≤◌, length};
ghost use Rattle.gc0_base.specs.declared.limits.TheConstants.Limits as limits;

use crate::trouble::Trouble;
use c0_lex::tokens;
use c0_parse::parse;
use c0_types::resolve;
use core_lower::lower;
use core_tree::Core;
use gc0_base::Limits;
use gc0_tree::Program;
use std::alloc::Global;
use std::time::{CpuClock, Duration};

/// The resolved program of a text.
pub fn program_of(alloc: Global, text: &[u8]) -> Result<Program, Trouble> {
    if text.len() > Limits::SOURCE {
        return Err(Trouble::NoProgram);
    }
    let Ok(tokens) = tokens(alloc, text) else {
        return Err(Trouble::NoProgram);
    };
    let Ok(parsed) = parse(alloc, &tokens) else {
        return Err(Trouble::NoProgram);
    };
    resolve(alloc, &parsed).map_err(|_| Trouble::NoProgram)
}

/// Lowers a program so many times, and once more, and gives the line for the least time.
pub fn measured<R: CpuClock + AllocGlobal>(
    rt: &R,
    program: &Program,
    rounds: u32,
) -> Result<Vec<u8>, Trouble> {
    let core = lower(rt.alloc(), program)?;
    let mut best = u64::MAX;
    for _ in 0..rounds {
        best = best.min(round(rt, program)?);
    }
    line_of(rt.alloc(), &core, best)
}

// The time of one lowering.
fn round<R: CpuClock + AllocGlobal>(rt: &R, program: &Program) -> Result<u64, Trouble> {
    let Ok(start) = rt.thread_cpu_time() else {
        return Err(Trouble::Clock);
    };
    let core = lower(rt.alloc(), program)?;
    let Ok(done) = rt.thread_cpu_time() else {
        return Err(Trouble::Clock);
    };
    drop(core);
    Ok(nanoseconds(done.saturating_sub(start)))
}

fn nanoseconds(time: Duration) -> u64 {
    time.as_secs()
        .saturating_mul(1_000_000_000)
        .saturating_add(u64::from(time.subsec_nanos()))
}

fn line_of(alloc: Global, core: &Core, best: u64) -> Result<Vec<u8>, Trouble> {
    let functions = core.functions.len();
    let mut decisions: usize = 0;
    for function in core.functions.as_slice() {
        decisions = decisions.saturating_add(function.decisions.len());
    }
    let line = format!(in alloc; "{functions} {decisions} {best}\n")?;
    Ok(line.into_bytes())
}
