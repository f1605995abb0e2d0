//! The instructions that write, and the checks.

ghost use Rattle.std.specs.Prelude.{◌≡◌, ◌≤◌, ◌<◌, ◌++◌, IfOk, IfErr, MatchResult, reverse, take, slice_range};
ghost use Rattle.std.specs.Io.KnownBytes.{append_known};
ghost use Rattle.gc0_io.specs.Causes.{Rose};
ghost use Rattle.gc0_io.specs.Bytes.{TakesFront};
ghost use Rattle.gc0_tree.specs.Views.{formula_view};
ghost use Rattle.c0_meaning.specs.Operators.{truth_text};
ghost use Rattle.stack_code.specs.Instrs as instr;
ghost use Rattle.stack_code.specs.Views.{words_view};
ghost use Rattle.stack_code.specs.Machine.{words_of};
ghost use Rattle.stack_code.specs.Built.{IsBuiltFormula};
ghost use Rattle.stack_runner.specs.States.{IsFine, DoesAnyhow, operands_at, shown, text_of};

use crate::act::RunFault;
use crate::formulas::{Given, formula_holds};
use crate::state::State;
use gc0_base::{Ending, Site, Word};
use gc0_io::{Sink, write_all};
use gc0_tree::Formula;
use itoa::Buffer;
use stack_code::Words;

impl<'a> State<'a> {
    /// Writes the top operand as a decimal number.
    pub(crate) fn print_int<O: Sink>(&mut self, out: &mut O) -> Result<Option<Ending>, RunFault>
        requires fine { IsFine self.old }
        requires room { self.old.frame.next < usize.MAX }
        ensures fine { IfOk result (λ _. IsFine self.new) }
        ensures step { IfOk result (λ end. DoesAnyhow instr.printint self.old self.new end) }
        ensures bytes { MatchResult result
            (λ _. O.taken out.new ≡ append_known (O.taken out.old) (text_of instr.printint (operands_at self.old.frame.floor self.old.values.items)))
            (λ _. TakesFront (O.taken out.old) (O.taken out.new) (text_of instr.printint (operands_at self.old.frame.floor self.old.values.items))) }
        ensures cause { IfErr result (λ _. Rose (O.faults out.old) (O.faults out.new)) }
        ensures later { O.faults out.old ≤ O.faults out.new }
    {
        let Some(word) = self.pop() else {
            return Ok(Some(Ending::StepsUsed));
        };
        let mut buffer = Buffer::new();
        let text = buffer.format(Word(word).to_i32());
        if write_all(out, text.as_bytes()).is_err() {
            return Err(RunFault::Write);
        }
        self.frame.next += 1;
        Ok(None)
    }

    /// Writes the top operand as a truth.
    pub(crate) fn print_bool<O: Sink>(&mut self, out: &mut O) -> Result<Option<Ending>, RunFault>
        requires fine { IsFine self.old }
        requires room { self.old.frame.next < usize.MAX }
        ensures fine { IfOk result (λ _. IsFine self.new) }
        ensures step { IfOk result (λ end. DoesAnyhow instr.printbool self.old self.new end) }
        ensures bytes { MatchResult result
            (λ _. O.taken out.new ≡ append_known (O.taken out.old) (text_of instr.printbool (operands_at self.old.frame.floor self.old.values.items)))
            (λ _. TakesFront (O.taken out.old) (O.taken out.new) (text_of instr.printbool (operands_at self.old.frame.floor self.old.values.items))) }
        ensures cause { IfErr result (λ _. Rose (O.faults out.old) (O.faults out.new)) }
        ensures later { O.faults out.old ≤ O.faults out.new }
    {
        let Some(word) = self.pop() else {
            return Ok(Some(Ending::StepsUsed));
        };
        if write_all(out, truth_text(word)).is_err() {
            return Err(RunFault::Write);
        }
        self.frame.next += 1;
        Ok(None)
    }

    // So many of the top operands, or all where there are fewer.
    fn top(&self, count: usize) -> &[u32]
        requires { IsFine self.now }
        ensures { result.now ≡ reverse (take count (operands_at self.now.frame.floor self.now.values.items)) }
    {
        let first = self
            .frame
            .floor
            .max(self.values.len().saturating_sub(count));
        &self.values[first..]
    }

    // The words that a formula speaks of.
    fn given(&self, words: Words) -> Given<'_>
        requires { IsFine self.now }
        ensures { result.front.now ++ result.back.now ≡ words_of (words_view words) (shown self.now.values.items self.now.frame) }
    {
        let locals = &self.values[self.frame.base..self.frame.floor];
        match words {
            Words::Locals => Given {
                front: locals,
                back: &[],
            },
            Words::Arguments(count) => Given {
                front: self.top(count),
                back: &[],
            },
            Words::WithResult(params) => Given {
                front: &locals[..params.min(locals.len())],
                back: self.top(1),
            },
        }
    }

    /// Ends the run at a site where the formula doesn't hold.
    pub(crate) fn check(&mut self, site: Site, formula: &Formula, words: Words) -> Option<Ending>
        requires fine { IsFine self.old }
        requires room { self.old.frame.next < usize.MAX }
        requires built { IsBuiltFormula (formula_view formula.now) }
        ensures fine { IsFine self.new }
        ensures step { DoesAnyhow (instr.checkwhole site (formula_view formula.now) (words_view words)) self.old self.new result }
    {
        if !formula_holds(formula, self.given(words)) {
            return Some(Ending::Stop(site));
        }
        self.frame.next += 1;
        None
    }
}

fn truth_text(word: u32) -> &'static [u8]
    ensures { result.now ≡ truth_text word }
{
    if word == 0 { b"false" } else { b"true" }
}
