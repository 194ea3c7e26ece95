//! Counts of faults, and plans of the calls that fail.

ghost use Rattle.std.specs.Prelude.{◌≡◌, ◌≤◌, true};
ghost use Rattle.jl_io.specs.Faults.{Rose, raised};

use std::marker::Model;

/// One more fault. The count stays at its last value.
pub(crate) fn raise(count: u64) -> u64
    ensures value { result ≡ raised count }
    ensures counted { count ≤ result }
    ensures rose { Rose count result }
{
    count.saturating_add(1)
}

/// Which calls of a device in memory fail, and how many calls and faults there were.
#[derive(Drop)]
pub(crate) struct FaultPlan {
    fail_at: Vec<u64>,
    calls: u64,
    faults: u64,
}

impl Model for FaultPlan {
    ghost use Rattle.jl_io.specs.Memory.{Plan};

    ghost Value = { Plan };

    ghost view = { λ plan. record {
      fail_at = plan.fail_at.items;
      calls = plan.calls;
      faults = plan.faults;
    } };
}

impl FaultPlan {
    ghost use Rattle.jl_io.specs.Memory.{call_fails, after_call};

    /// A plan that fails at the calls with these numbers, counted from 1.
    pub(crate) fn new(fail_at: Vec<u64>) -> FaultPlan
        ensures { result ≡ record { fail_at = fail_at.items; calls = 0; faults = 0 } }
    {
        FaultPlan {
            fail_at,
            calls: 0,
            faults: 0,
        }
    }

    /// Counts one more call, and tells whether it fails.
    pub(crate) fn next_call_fails(&mut self) -> bool
        ensures answer { result ≡ call_fails self.old }
        ensures after { self.new ≡ after_call self.old }
        ensures counted { self.old.faults ≤ self.new.faults }
        ensures rose { result ≡ true → Rose self.old.faults self.new.faults }
    {
        self.calls = raise(self.calls);
        let fails = self.fail_at.contains(&self.calls);
        if fails {
            self.faults = raise(self.faults);
        }
        fails
    }
}
