//! Laws of tasks that are led. They are about definitions alone: each function does nothing, and its contract is the law.

ghost use Rattle.jl_lead.specs.Carried.{MachineStays};

/// A machine waits while others go on: it fits then as before, and its task may be led on.
pub fn law_machine_stays()
    ensures { MachineStays }
{}
