//! The names of the faults of values.

use crate::holds;
use jl_value::MakeFault;
use std::alloc::{AllocError, Global};

static FAULTS: [(MakeFault, &str); 5] = [
    (MakeFault::TypeLimit, "TypeLimit"),
    (MakeFault::FieldCount, "FieldCount"),
    (MakeFault::FieldType(0), "FieldType"),
    (MakeFault::ValueLimit, "ValueLimit"),
    (MakeFault::Memory, "out of memory"),
];

fn names_are_right(alloc: Global) -> Result<bool, AllocError> {
    for (fault, text) in &FAULTS {
        let written = format!(in alloc; "{fault}")?;
        if written.as_str() != *text {
            return Ok(false);
        }
    }
    Ok(true)
}

#[test]
fn faults_are_written_by_their_names(rt: HostRuntime) {
    assert!(rt; holds(names_are_right(rt.alloc())));
}
