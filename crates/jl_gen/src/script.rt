//! The script of a number.

ghost use Rattle.std.specs.Prelude.{◌≡◌, ◌≤◌, ◌++◌, IfOk, OnOk};
ghost use Rattle.jl_gen.specs.declared.numbers.TheConstants.{MOST_NUMBER};
ghost use Rattle.jl_gen.specs.Script.{type_part, method_part, function_part, task_part, script_text};

use crate::lines::{
    abstract_lines, append_areas, append_prints, append_spawns, append_structs, area_lines,
    both_lines, redo_lines, work_lines,
};
use crate::numbers::{rounds_in, tasks_in, types_in};
use jl_model::rows::Row;
use jl_model::ty::Bytes;
use std::alloc::{AllocError, Global};

/// The types.
fn append_types(out: &mut Row<u8>, types: u32) -> Result<(), AllocError>
    ensures { OnOk result (out.new ≡ out.old ++ type_part types) }
{
    out.append(abstract_lines())?;
    append_structs(out, types)
}

/// The methods.
fn append_methods(out: &mut Row<u8>, types: u32) -> Result<(), AllocError>
    ensures { OnOk result (out.new ≡ out.old ++ method_part types) }
{
    out.append(area_lines())?;
    append_areas(out, types)?;
    out.append(both_lines())
}

/// The functions that a task calls.
fn append_functions(out: &mut Row<u8>) -> Result<(), AllocError>
    ensures { OnOk result (out.new ≡ out.old ++ function_part) }
{
    out.append(redo_lines())?;
    out.append(work_lines())
}

/// The tasks, all started before the first is fetched.
fn append_tasks(out: &mut Row<u8>, tasks: u32, rounds: u32) -> Result<(), AllocError>
    ensures { OnOk result (out.new ≡ out.old ++ task_part tasks rounds) }
{
    append_spawns(out, tasks, rounds)?;
    append_prints(out, tasks)
}

/// The script of a number, which is at most 99,999,999. It takes time in proportion to its text, which has fewer than 6,000
/// bytes. The one error is want of memory.
pub fn script_of(alloc: Global, n: u32) -> Result<Bytes, AllocError>
    requires small { n ≤ MOST_NUMBER }
    ensures text { IfOk result (λ text. text ≡ script_text n) }
{
    let mut out = Row::new(alloc);
    append_types(&mut out, types_in(n))?;
    append_methods(&mut out, types_in(n))?;
    append_functions(&mut out)?;
    append_tasks(&mut out, tasks_in(n), rounds_in(n))?;
    out.into_shared(alloc)
}
