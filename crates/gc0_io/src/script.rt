//! Which calls of a form in memory are to fail.
ghost use Rattle.std.specs.Prelude.{◌≡◌, ◌≤◌, ◌+◌, ◌-◌, ◌^◌, min, false, [], ◌∷◌, ◌++◌, OnOk, OnErr, IsTrue, IfOk};
ghost use Rattle.gc0_io.specs.Causes.{Rose};
ghost use Rattle.gc0_io.specs.Scripts.{is_planned};

use std::alloc::{AllocError, Global};

/// Which calls of a form in memory are to fail, and how many have failed.
#[derive(Drop)]
pub struct Script {
    /// The numbers of the calls that are to fail, counted from 0.
    pub failing: Vec<u64>,
    /// How many calls there were.
    pub calls: u64,
    /// How many of them failed.
    pub faults: u64,
}

impl Script {
    /// No call is to fail.
    pub fn new(alloc: Global) -> Script
        ensures faults { result.faults ≡ 0 }
        ensures calls { result.calls ≡ 0 }
        ensures failing { result.failing.items ≡ [] }
    {
        Script {
            failing: Vec::new(alloc),
            calls: 0,
            faults: 0,
        }
    }

    /// The call of this number is to fail too.
    pub fn fail_at(&mut self, call: u64) -> Result<(), AllocError>
        ensures ok { OnOk result (self.new.failing.items ≡ self.old.failing.items ++ call ∷ []) }
        ensures err { OnErr result (self.new.failing.items ≡ self.old.failing.items) }
        ensures calls { self.new.calls ≡ self.old.calls }
        ensures faults { self.new.faults ≡ self.old.faults }
    {
        self.failing.push(call)?;
        Ok(())
    }

    /// Counts a call, and says whether it is to fail.
    pub fn fails(&mut self) -> bool
        ensures planned { result ≡ is_planned self.old }
        ensures counted { self.new.calls ≡ min (self.old.calls + 1) (2 ^ 64 - 1) }
        ensures failing { self.new.failing.items ≡ self.old.failing.items }
        ensures later { self.old.faults ≤ self.new.faults }
        ensures rose { IsTrue result → Rose self.old.faults self.new.faults }
        ensures kept { result ≡ false → self.new.faults ≡ self.old.faults }
    {
        let call = self.calls;
        self.calls = call.saturating_add(1);
        let fails = self.failing.contains(&call);
        if fails {
            self.fault();
        }
        fails
    }

    /// Counts a fault.
    pub fn fault(&mut self)
        ensures later { self.old.faults ≤ self.new.faults }
        ensures rose { Rose self.old.faults self.new.faults }
        ensures calls { self.new.calls ≡ self.old.calls }
        ensures failing { self.new.failing.items ≡ self.old.failing.items }
    {
        self.faults = self.faults.saturating_add(1);
    }
}
