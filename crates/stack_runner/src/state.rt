//! The state of a machine: its values and frames.

ghost use Rattle.std.specs.Prelude.{◌≡◌, ◌+◌, ◌<◌, ◌≤◌, [], ◌∷◌, ℕ, List, slice_range, slice_index, slice_set, MatchOption, IfOk, IfSome};
ghost use Rattle.stack_code.specs.Instrs as instr;
ghost use Rattle.stack_code.specs.Views.{code_view, body_view};
ghost use Rattle.stack_code.specs.Machine.{on, entered, first};
ghost use Rattle.stack_runner.specs.Built.{HasBuiltInstrs, IsBuiltCode};
ghost use Rattle.stack_runner.specs.States.{IsFine, Differs, IsShort, DoesAnyhow, Does, machine_of, operands_at, callers_of};

use gc0_base::{Ending, Word};
use stack_code::{Code, FunctionCode, Instr};
use std::alloc::{AllocError, Global};

/// A call that runs or waits.
#[derive(Clone, Copy)]
pub(crate) struct Frame<'a> {
    /// The instructions of its function.
    pub(crate) instrs: &'a [Instr<'a>],
    /// The number of the next one.
    pub(crate) next: usize,
    /// Where its locals begin in the store.
    pub(crate) base: usize,
    /// Where its operands begin in the store, behind its locals.
    pub(crate) floor: usize,
}

/// A run that has come so far.
#[derive(Drop)]
pub(crate) struct State<'a> {
    /// The frame that runs.
    pub(crate) frame: Frame<'a>,
    /// The frames that wait, the caller last.
    pub(crate) callers: Vec<Frame<'a>>,
    /// The locals and operands of all frames, those of the running one on top.
    pub(crate) values: Vec<u32>,
    /// How many steps are left.
    pub(crate) steps: u64,
}

impl<'a> State<'a> {
    /// The state in which a run of the code begins.
    pub(crate) fn first(
        alloc: Global,
        code: &'a Code<'a>,
        steps: u64,
    ) -> Result<State<'a>, AllocError>
        requires { HasBuiltInstrs (body_view code.now.start) }
        ensures fine { IfOk result (λ state. IsFine state) }
        ensures first { IfOk result (λ state. (input : List ℕ) → machine_of input [] state ≡ first (code_view code.now) input steps) }
    {
        let locals = code.start.locals.saturating_sub(code.start.params);
        let mut values = Vec::new(alloc);
        values.resize(locals, 0)?;
        let frame = Frame {
            instrs: code.start.instrs.as_slice(),
            next: 0,
            base: 0,
            floor: locals,
        };
        Ok(State {
            frame,
            callers: Vec::new(alloc),
            values,
            steps,
        })
    }

    /// Goes on with the next instruction, with a new operand on top.
    pub(crate) fn put(&mut self, word: u32) -> Result<(), AllocError>
        requires fine { IsFine self.old }
        requires room { self.old.frame.next < usize.MAX }
        ensures fine { IfOk result (λ _. IsFine self.new) }
        ensures step { IfOk result (λ _. Differs self.old self.new (self.old.frame.next + 1) (word ∷ operands_at self.old.frame.floor self.old.values.items)) }
    {
        self.values.push(word)?;
        self.frame.next += 1;
        Ok(())
    }

    /// Takes the top operand.
    pub(crate) fn pop(&mut self) -> Option<u32>
        requires fine { IsFine self.old }
        ensures fine { IsFine self.new }
        ensures step { MatchOption result
            (operands_at self.old.frame.floor self.old.values.items ≡ [])
            (λ word. (operands_at self.old.frame.floor self.old.values.items ≡ word ∷ operands_at self.new.frame.floor self.new.values.items)
            × Differs self.old self.new self.old.frame.next (operands_at self.new.frame.floor self.new.values.items)) }
    {
        if self.values.len() == self.frame.floor {
            return None;
        }
        let word = self.values.pop()?;
        Some(word)
    }

    /// Takes two operands, the lower one first.
    pub(crate) fn pop_two(&mut self) -> Option<(Word, Word)>
        requires fine { IsFine self.old }
        ensures fine { IsFine self.new }
        ensures step { MatchOption result
            (IsShort (operands_at self.old.frame.floor self.old.values.items))
            (λ words. (operands_at self.old.frame.floor self.old.values.items ≡ words.1.0 ∷ words.0.0 ∷ operands_at self.new.frame.floor self.new.values.items)
            × Differs self.old self.new self.old.frame.next (operands_at self.new.frame.floor self.new.values.items)) }
    {
        let Some(right) = self.pop() else {
            return None;
        };
        let Some(left) = self.pop() else {
            return None;
        };
        Some((Word(left), Word(right)))
    }

    /// The word of a local, and 0 where the frame has none of this number.
    pub(crate) fn local(&self, number: usize) -> u32
        requires fine { IsFine self.now }
        ensures { result ≡ slice_index (slice_range self.now.values.items self.now.frame.base self.now.frame.floor) number }
    {
        if number < self.frame.floor - self.frame.base {
            self.values[self.frame.base + number]
        } else {
            0
        }
    }

    /// Writes a local, where the frame has one of this number.
    pub(crate) fn set_local(&mut self, number: usize, word: u32)
        requires fine { IsFine self.old }
        ensures fine { IsFine self.new }
        ensures frame { self.new.frame ≡ self.old.frame }
        ensures steps { self.new.steps ≡ self.old.steps }
        ensures callers { callers_of self.new ≡ callers_of self.old }
        ensures operands { operands_at self.new.frame.floor self.new.values.items ≡ operands_at self.old.frame.floor self.old.values.items }
        ensures locals { slice_range self.new.values.items self.new.frame.base self.new.frame.floor
            ≡ slice_set (slice_range self.old.values.items self.old.frame.base self.old.frame.floor) number word }
    {
        if number < self.frame.floor - self.frame.base {
            self.values[self.frame.base + number] = word;
        }
    }

    /// Begins a frame of a function on its arguments, which are the top operands.
    pub(crate) fn enter(&mut self, function: &'a FunctionCode<'a>) -> Result<(), AllocError>
        requires fine { IsFine self.old }
        requires room { self.old.frame.next < usize.MAX }
        requires built { HasBuiltInstrs (body_view function.now) }
        ensures fine { IfOk result (λ _. IsFine self.new) }
        ensures step { IfOk result (λ _. (input output : List ℕ) → entered (machine_of input output self.old) (Some (body_view function.now)) ≡ on (machine_of input output self.new)) }
    {
        let top = self.values.len();
        let base = self.frame.floor.max(top.saturating_sub(function.params));
        let Some(floor) = top.checked_add(function.locals.saturating_sub(function.params)) else {
            return Err(AllocError);
        };
        self.values.resize(floor, 0)?;
        self.frame.next += 1;
        self.callers.push(self.frame)?;
        self.frame = Frame {
            instrs: function.instrs.as_slice(),
            next: 0,
            base,
            floor,
        };
        Ok(())
    }

    /// Ends the running frame with its result, the top operand.
    pub(crate) fn leave(&mut self) -> Result<Option<Ending>, AllocError>
        requires fine { IsFine self.old }
        ensures fine { IfOk result (λ _. IsFine self.new) }
        ensures step { IfOk result (λ end. DoesAnyhow instr.return self.old self.new end) }
    {
        let Some(word) = self.pop() else {
            return Ok(Some(Ending::StepsUsed));
        };
        let Some(caller) = self.callers.pop() else {
            return Ok(Some(Ending::Returned(Word(word))));
        };
        self.values.truncate(self.frame.base);
        self.values.push(word)?;
        self.frame = caller;
        Ok(None)
    }
}
