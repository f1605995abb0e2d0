//! One instruction of a run.

ghost use Rattle.std.specs.Prelude.{◌≡◌, ◌≤◌, ◌<◌, map, slice_get, IfOk, IfErr, IfSome, MatchResult};
ghost use Rattle.std.specs.Option.{option_map};
ghost use Rattle.std.specs.Io.KnownBytes.{append_known};
ghost use Rattle.gc0_io.specs.Causes.{Rose};
ghost use Rattle.gc0_io.specs.Bytes.{TakesFront};
ghost use Rattle.stack_code.specs.Instrs as instr;
ghost use Rattle.stack_code.specs.Views.{code_view, instr_view};
ghost use Rattle.stack_runner.specs.declared.act.RunFault.TheVariants.{Memory};
ghost use Rattle.stack_runner.specs.Built.{IsBuiltCode, IsBuiltInstr};
ghost use Rattle.stack_runner.specs.States.{IsFine, Does, operands_at, text_of};

use crate::state::State;
use gc0_base::Ending;
use gc0_io::Sink;
use sqlite_items::at;
use stack_code::{Code, Instr};
use std::alloc::AllocError;

/// Why a run did not come to its end.
#[derive(Clone, Copy, Debug, PartialEq, Eq)]
pub enum RunFault {
    /// The sink failed.
    Write,
    /// There was no memory for the run.
    Memory,
}

impl From<AllocError> for RunFault {
    ghost from_gives = { λ _ e. e ≡ Memory };

    fn from(_: AllocError) -> Self {
        RunFault::Memory
    }
}

impl<'a> State<'a> {
    /// Does an instruction. An ending where the run ends with it.
    pub(crate) fn act<O: Sink>(
        &mut self,
        code: &'a Code<'a>,
        instr: Instr<'a>,
        out: &mut O,
    ) -> Result<Option<Ending>, RunFault>
        requires fine { IsFine self.old }
        requires room { self.old.frame.next < usize.MAX }
        requires code { IsBuiltCode (code_view code.now) }
        requires built { IsBuiltInstr (instr_view instr) }
        ensures fine { IfOk result (λ _. IsFine self.new) }
        ensures step { IfOk result (λ end. Does (code_view code.now) (instr_view instr.entry) self.old self.new end) }
        ensures bytes { MatchResult result
            (λ _. O.taken out.new ≡ append_known (O.taken out.old) (text_of (instr_view instr.entry) (operands_at self.old.frame.floor self.old.values.items)))
            (λ _. TakesFront (O.taken out.old) (O.taken out.new) (text_of (instr_view instr.entry) (operands_at self.old.frame.floor self.old.values.items))) }
        ensures cause { IfErr result (λ e. e ≡ RunFault.Write → Rose (O.faults out.old) (O.faults out.new)) }
        ensures later { O.faults out.old ≤ O.faults out.new }
    {
        match instr {
            Instr::Push(word) => Ok(self.push(word)?),
            Instr::Load(number) => Ok(self.load(number)?),
            Instr::Save(number) => Ok(self.save(number)),
            Instr::Drop => Ok(self.discard()),
            Instr::Neg => Ok(self.neg()?),
            Instr::Flip => Ok(self.flip()?),
            Instr::Add => Ok(self.add()?),
            Instr::Sub => Ok(self.sub()?),
            Instr::Mul => Ok(self.mul()?),
            Instr::Less => Ok(self.less()?),
            Instr::LessEq => Ok(self.lesseq()?),
            Instr::Equal => Ok(self.equal()?),
            Instr::Jump(target) => Ok(self.jump(target)),
            Instr::JumpFalse(target) => Ok(self.jump_false(target)),
            Instr::Step => Ok(self.step()),
            Instr::Call(number) => Ok(self.call(code, number)?),
            Instr::Return => Ok(self.leave()?),
            Instr::PrintInt => self.print_int(out),
            Instr::PrintBool => self.print_bool(out),
            Instr::CheckWhole {
                site,
                formula,
                words,
            } => Ok(self.check(site, formula, words)),
        }
    }

    // Calls the function of this number.
    fn call(&mut self, code: &'a Code<'a>, number: usize) -> Result<Option<Ending>, AllocError>
        requires fine { IsFine self.old }
        requires room { self.old.frame.next < usize.MAX }
        requires code { IsBuiltCode (code_view code.now) }
        ensures fine { IfOk result (λ _. IsFine self.new) }
        ensures step { IfOk result (λ end. Does (code_view code.now) (instr.call number) self.old self.new end) }
    {
        let Some(function) = code.functions.get(number) else {
            return Ok(Some(Ending::StepsUsed));
        };
        self.enter(function)?;
        Ok(None)
    }

    /// The next instruction, where the function has it.
    pub(crate) fn next(&self) -> Option<Instr<'a>>
        requires { IsFine self.now }
        ensures value { slice_get (map instr_view self.now.frame.instrs.now) self.now.frame.next ≡ option_map instr_view result }
        ensures room { IfSome result (λ _. self.now.frame.next < usize.MAX) }
        ensures built { IfSome result (λ instr. IsBuiltInstr (instr_view instr)) }
    {
        match at(self.frame.instrs, self.frame.next) {
            Some(instr) => Some(*instr),
            None => None,
        }
    }
}
