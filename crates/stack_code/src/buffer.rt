//! Instructions while they are written.

ghost use Rattle.std.specs.Prelude.{◌≡◌, ◌<◌, [], ◌∷◌, ◌++◌, length, map, slice_set, OnOk};
ghost use Rattle.stack_code.specs.Views.{instr_view};
ghost use Rattle.stack_code.specs.Within.{shown};

use crate::instr::Instr;
use sqlite_items::Items;
use std::alloc::{AllocError, Global};

/// The instructions of a function, of which the jumps may still be set.
#[derive(Drop)]
pub struct Buffer<'a> {
    instrs: Vec<Instr<'a>>,
}

impl<'a> Buffer<'a> {
    pub fn new(alloc: Global) -> Buffer<'a>
        ensures { shown result ≡ [] }
    {
        Buffer {
            instrs: Vec::new(alloc),
        }
    }

    pub fn len(&self) -> usize
        ensures { result ≡ length (shown self.now) }
    {
        self.instrs.len()
    }

    pub fn push(&mut self, instr: Instr<'a>) -> Result<(), AllocError>
        ensures { OnOk result (shown self.new ≡ shown self.old ++ instr_view instr.entry ∷ []) }
    {
        self.instrs.push(instr)?;
        Ok(())
    }

    #[tactic(auto, using(crate::proofs::Maps::map_set, crate::proofs::Maps::map_set_past))]
    pub fn set(&mut self, at: usize, instr: Instr<'a>)
        ensures { shown self.new ≡ slice_set (shown self.old) at (instr_view instr.entry) }
    {
        if at < self.instrs.len() {
            self.instrs[at] = instr;
        }
    }

    pub fn into_items(self) -> Items<Instr<'a>>
        ensures { map instr_view result ≡ shown self.entry }
    {
        let Buffer { instrs } = self;
        Items::from_vec(instrs)
    }
}
