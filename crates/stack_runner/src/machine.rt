//! The machine: its loop over instructions.

ghost use Rattle.std.specs.Prelude.{◌≡◌, ◌≤◌, ◌+◌, ◌*◌, map, IfOk, IfErr, IfSome};
ghost use Rattle.std.specs.Io.KnownBytes.{append_known};
ghost use Rattle.gc0_io.specs.Causes.{Rose};
ghost use Rattle.gc0_io.specs.Bytes.{TakesFront};
ghost use Rattle.stack_code.specs.Instrs.{size};
ghost use Rattle.stack_code.specs.Views.{code_view};

use crate::act::RunFault;
use crate::state::State;
use gc0_base::{Ending, Word};
use gc0_io::Sink;
use stack_code::Code;
use std::alloc::{AllocError, Global};

/// A code that is to run, with its input and its steps.
#[derive(Drop)]
pub struct Machine<'a> {
    alloc: Global,
    code: &'a Code<'a>,
    input: &'a [Word],
    steps: u64,
    // How many instructions a round of a run is given. A run has two rounds more than steps.
    turns: u64,
    ghost few: { steps ≤ 4294967295 },
    ghost round: { turns ≡ (steps + 2) * (size (code_view code.now) + 1) },
}

impl<'a> Machine<'a> {
    ghost use Rattle.stack_code.specs.Machine.{run_code};
    ghost use Rattle.stack_runner.specs.Built.{IsBuiltCode};
    ghost use Rattle.stack_runner.specs.Runs.{seen_of, IsBuilt};

    /// A machine for a code whose checks are of values, with the numbers that it may read and the
    /// number of steps that a run may take. There is no memory for a code of 2^31 instructions or
    /// more.
    pub fn new(
        alloc: Global,
        code: &'a Code<'a>,
        input: &'a [Word],
        steps: u64,
    ) -> Result<Machine<'a>, AllocError>
        requires steps { steps ≤ 4294967295 }
        requires built { IsBuiltCode (code_view code.now) }
        ensures seen { IfOk result (λ machine. seen_of machine ≡ run_code (code_view code.now) (map (λ w. w.0) input.now) steps) }
        ensures built { IfOk result (λ machine. IsBuilt machine) }
    {
        let Some(turns) = turns_of(code, steps) else {
            return Err(AllocError);
        };
        Ok(Machine {
            alloc,
            code,
            input,
            steps,
            turns,
        })
    }

    /// Runs the code from its beginning, and hands each output to `out` at once.
    pub fn run<O: Sink>(&mut self, out: &mut O) -> Result<Ending, RunFault>
        requires { IsBuilt self.old }
        ensures ok { IfOk result (λ e. (O.taken out.new ≡ append_known (O.taken out.old) (seen_of self.old).0) × ((seen_of self.old).1 ≡ e)) }
        ensures front { IfErr result (λ _. TakesFront (O.taken out.old) (O.taken out.new) (seen_of self.old).0) }
        ensures cause { IfErr result (λ e. e ≡ RunFault.Write → Rose (O.faults out.old) (O.faults out.new)) }
        ensures later { O.faults out.old ≤ O.faults out.new }
        ensures kept { self.new ≡ self.old }
    {
        let mut state = State::first(self.alloc, self.code, self.steps)?;
        for _round in 0..self.steps + 2 {
            for _turn in 0..self.turns {
                let Some(instr) = state.next() else {
                    return Ok(Ending::StepsUsed);
                };
                match state.act(self.code, instr, out) {
                    Ok(None) => {}
                    Ok(Some(ending)) => return Ok(ending),
                    Err(fault) => return Err(fault),
                }
            }
        }
        Ok(Ending::StepsUsed)
    }
}

// How many instructions a round of a run is given, where 64 bits hold the number.
fn turns_of(code: &Code<'_>, steps: u64) -> Option<u64>
    requires { steps ≤ 4294967295 }
    ensures { IfSome result (λ n. n ≡ (steps + 2) * (size (code_view code.now) + 1)) }
{
    let size = size_of(code)?;
    (steps + 2).checked_mul(size.checked_add(1)?)
}

// How many instructions a code has, where 64 bits hold the number.
fn size_of(code: &Code<'_>) -> Option<u64>
    ensures { IfSome result (λ n. n ≡ size (code_view code.now)) }
{
    let mut total = code.start.instrs.len() as u64;
    for function in code.functions.as_slice() {
        total = total.checked_add(function.instrs.len() as u64)?;
    }
    Some(total)
}
