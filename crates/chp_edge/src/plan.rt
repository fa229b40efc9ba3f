//! Which calls of a device in memory fail.

ghost use Rattle.std.specs.Prelude.{◌≡◌, ◌≤◌, ◌<◌, ◌^◌, ◌↔◌, IsTrue, Contains};
ghost use Rattle.std.specs.Bool.{OnTrue, OnFalse};
ghost use Rattle.chp_edge.specs.Faults.{Rose, one_higher};

use crate::count::count_up;

/// The numbers of the calls that fail, counted from 1, with the numbers of calls and of faults so far. Both counts
/// saturate at 2^64 - 1.
#[derive(Drop)]
pub struct Plan {
    failing: Vec<u64>,
    calls: u64,
    pub faults: u64,
}

impl Plan {
    pub fn new(failing: Vec<u64>) -> Plan
        ensures calls { result.calls ≡ 0 }
        ensures faults { result.faults ≡ 0 }
        ensures failing { result.failing.items ≡ failing.items }
    {
        Plan {
            failing,
            calls: 0,
            faults: 0,
        }
    }

    /// Counts a fault.
    pub fn fault(&mut self)
        ensures exact { self.new.faults ≡ one_higher self.old.faults }
        ensures rose { Rose self.old.faults self.new.faults }
        ensures faults { self.old.faults ≤ self.new.faults }
        ensures counted { self.new.faults < 2 ^ 64 }
        ensures calls { self.new.calls ≡ self.old.calls }
        ensures failing { self.new.failing ≡ self.old.failing }
    {
        let _count = self.faults;
        count_up(&mut self.faults);
    }

    /// Counts a call, and returns whether it is one of those that fail, which counts as a fault.
    pub fn fails(&mut self) -> bool
        ensures calls { self.new.calls ≡ one_higher self.old.calls }
        ensures failing { self.new.failing ≡ self.old.failing }
        ensures planned { IsTrue result ↔ Contains self.old.failing.items self.new.calls }
        ensures exact { OnTrue result (self.new.faults ≡ one_higher self.old.faults) }
        ensures rose { OnTrue result (Rose self.old.faults self.new.faults) }
        ensures faults { self.old.faults ≤ self.new.faults }
        ensures counted { self.new.faults < 2 ^ 64 }
        ensures stays { OnFalse result (self.new.faults ≡ self.old.faults) }
    {
        let _count = self.faults;
        count_up(&mut self.calls);
        let failing = self.failing.contains(&self.calls);
        if failing {
            self.fault();
        }
        failing
    }
}
