//! What each instruction does to the words of the running frame.

ghost use Rattle.std.specs.Prelude.{◌≡◌, ◌<◌, IfOk};
ghost use Rattle.c0_meaning.specs.Operators.{truth_word};
ghost use Rattle.stack_code.specs.Instrs as instr;
ghost use Rattle.stack_runner.specs.States.{IsFine, DoesAnyhow};

use crate::state::State;
use gc0_base::{Ending, Word};
use std::alloc::AllocError;

/// The word of a truth.
pub(crate) fn truth(holds: bool) -> u32
    ensures { result ≡ truth_word holds }
{
    if holds { 1 } else { 0 }
}

impl<'a> State<'a> {
    /// A constant on top.
    pub(crate) fn push(&mut self, word: Word) -> Result<Option<Ending>, AllocError>
        requires fine { IsFine self.old }
        requires room { self.old.frame.next < usize.MAX }
        ensures fine { IfOk result (λ _. IsFine self.new) }
        ensures step { IfOk result (λ end. DoesAnyhow (instr.push word.0) self.old self.new end) }
    {
        self.put(word.0)?;
        Ok(None)
    }

    /// A local on top.
    pub(crate) fn load(&mut self, number: usize) -> Result<Option<Ending>, AllocError>
        requires fine { IsFine self.old }
        requires room { self.old.frame.next < usize.MAX }
        ensures fine { IfOk result (λ _. IsFine self.new) }
        ensures step { IfOk result (λ end. DoesAnyhow (instr.load number) self.old self.new end) }
    {
        let word = self.local(number);
        self.put(word)?;
        Ok(None)
    }

    /// Adds the two top operands.
    pub(crate) fn add(&mut self) -> Result<Option<Ending>, AllocError>
        requires fine { IsFine self.old }
        requires room { self.old.frame.next < usize.MAX }
        ensures fine { IfOk result (λ _. IsFine self.new) }
        ensures step { IfOk result (λ end. DoesAnyhow instr.add self.old self.new end) }
    {
        let Some((x, y)) = self.pop_two() else {
            return Ok(Some(Ending::StepsUsed));
        };
        self.put(x.add(y).0)?;
        Ok(None)
    }

    /// Subtracts the top operand from the one below.
    pub(crate) fn sub(&mut self) -> Result<Option<Ending>, AllocError>
        requires fine { IsFine self.old }
        requires room { self.old.frame.next < usize.MAX }
        ensures fine { IfOk result (λ _. IsFine self.new) }
        ensures step { IfOk result (λ end. DoesAnyhow instr.sub self.old self.new end) }
    {
        let Some((x, y)) = self.pop_two() else {
            return Ok(Some(Ending::StepsUsed));
        };
        self.put(x.sub(y).0)?;
        Ok(None)
    }

    /// Multiplies the two top operands.
    pub(crate) fn mul(&mut self) -> Result<Option<Ending>, AllocError>
        requires fine { IsFine self.old }
        requires room { self.old.frame.next < usize.MAX }
        ensures fine { IfOk result (λ _. IsFine self.new) }
        ensures step { IfOk result (λ end. DoesAnyhow instr.mul self.old self.new end) }
    {
        let Some((x, y)) = self.pop_two() else {
            return Ok(Some(Ending::StepsUsed));
        };
        self.put(x.mul(y).0)?;
        Ok(None)
    }

    /// Compares the two top operands.
    pub(crate) fn less(&mut self) -> Result<Option<Ending>, AllocError>
        requires fine { IsFine self.old }
        requires room { self.old.frame.next < usize.MAX }
        ensures fine { IfOk result (λ _. IsFine self.new) }
        ensures step { IfOk result (λ end. DoesAnyhow instr.less self.old self.new end) }
    {
        let Some((x, y)) = self.pop_two() else {
            return Ok(Some(Ending::StepsUsed));
        };
        self.put(truth(x.less(y)))?;
        Ok(None)
    }

    /// Compares the two top operands, where equal ones are in order too.
    pub(crate) fn lesseq(&mut self) -> Result<Option<Ending>, AllocError>
        requires fine { IsFine self.old }
        requires room { self.old.frame.next < usize.MAX }
        ensures fine { IfOk result (λ _. IsFine self.new) }
        ensures step { IfOk result (λ end. DoesAnyhow instr.lesseq self.old self.new end) }
    {
        let Some((x, y)) = self.pop_two() else {
            return Ok(Some(Ending::StepsUsed));
        };
        self.put(truth(!y.less(x)))?;
        Ok(None)
    }

    /// Compares the two top operands.
    pub(crate) fn equal(&mut self) -> Result<Option<Ending>, AllocError>
        requires fine { IsFine self.old }
        requires room { self.old.frame.next < usize.MAX }
        ensures fine { IfOk result (λ _. IsFine self.new) }
        ensures step { IfOk result (λ end. DoesAnyhow instr.equal self.old self.new end) }
    {
        let Some((x, y)) = self.pop_two() else {
            return Ok(Some(Ending::StepsUsed));
        };
        self.put(truth(x.0 == y.0))?;
        Ok(None)
    }

    /// Negates the top operand.
    pub(crate) fn neg(&mut self) -> Result<Option<Ending>, AllocError>
        requires fine { IsFine self.old }
        requires room { self.old.frame.next < usize.MAX }
        ensures fine { IfOk result (λ _. IsFine self.new) }
        ensures step { IfOk result (λ end. DoesAnyhow instr.neg self.old self.new end) }
    {
        let Some(word) = self.pop() else {
            return Ok(Some(Ending::StepsUsed));
        };
        self.put(Word(word).neg().0)?;
        Ok(None)
    }

    /// Turns a truth.
    pub(crate) fn flip(&mut self) -> Result<Option<Ending>, AllocError>
        requires fine { IsFine self.old }
        requires room { self.old.frame.next < usize.MAX }
        ensures fine { IfOk result (λ _. IsFine self.new) }
        ensures step { IfOk result (λ end. DoesAnyhow instr.flip self.old self.new end) }
    {
        let Some(word) = self.pop() else {
            return Ok(Some(Ending::StepsUsed));
        };
        self.put(truth(word == 0))?;
        Ok(None)
    }

    /// Writes a local.
    pub(crate) fn save(&mut self, number: usize) -> Option<Ending>
        requires fine { IsFine self.old }
        requires room { self.old.frame.next < usize.MAX }
        ensures fine { IsFine self.new }
        ensures step { DoesAnyhow (instr.save number) self.old self.new result }
    {
        let Some(word) = self.pop() else {
            return Some(Ending::StepsUsed);
        };
        self.set_local(number, word);
        self.frame.next += 1;
        None
    }

    /// Takes the top operand.
    pub(crate) fn discard(&mut self) -> Option<Ending>
        requires fine { IsFine self.old }
        requires room { self.old.frame.next < usize.MAX }
        ensures fine { IsFine self.new }
        ensures step { DoesAnyhow instr.drop self.old self.new result }
    {
        let Some(_word) = self.pop() else {
            return Some(Ending::StepsUsed);
        };
        self.frame.next += 1;
        None
    }

    /// Goes on with the instruction of this number.
    pub(crate) fn jump(&mut self, target: usize) -> Option<Ending>
        requires fine { IsFine self.old }
        requires room { self.old.frame.next < usize.MAX }
        ensures fine { IsFine self.new }
        ensures step { DoesAnyhow (instr.jump target) self.old self.new result }
    {
        self.frame.next = target;
        None
    }

    /// Goes on with the instruction of this number where the top operand is false.
    pub(crate) fn jump_false(&mut self, target: usize) -> Option<Ending>
        requires fine { IsFine self.old }
        requires room { self.old.frame.next < usize.MAX }
        ensures fine { IsFine self.new }
        ensures step { DoesAnyhow (instr.jumpfalse target) self.old self.new result }
    {
        let Some(word) = self.pop() else {
            return Some(Ending::StepsUsed);
        };
        if word == 0 {
            self.frame.next = target;
            return None;
        }
        self.frame.next += 1;
        None
    }

    /// Takes a step.
    pub(crate) fn step(&mut self) -> Option<Ending>
        requires fine { IsFine self.old }
        requires room { self.old.frame.next < usize.MAX }
        ensures fine { IsFine self.new }
        ensures step { DoesAnyhow instr.step self.old self.new result }
    {
        if self.steps == 0 {
            return Some(Ending::StepsUsed);
        }
        self.steps -= 1;
        self.frame.next += 1;
        None
    }
}
