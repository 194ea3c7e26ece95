//! The lines that stand once for each type or task, and those that stand once.

ghost use Rattle.std.specs.Prelude.{◌≡◌, ◌++◌, decimal, OnOk};
ghost use Rattle.jl_gen.specs.Script.{around, for_each, struct_line, area_line, spawn_line, print_line, abstract_lines, area_lines, both_lines, redo_lines, work_lines};

use itoa::Buffer;
use jl_model::rows::Row;
use std::alloc::AllocError;

/// The base of all types.
#[tactic(auto, unfolding(crate::specs::Script::abstract_lines))]
pub(crate) fn abstract_lines() -> &'static [u8]
    ensures { result.now ≡ abstract_lines }
{
    b"abstract type S end\n"
}

/// The method of the base.
#[tactic(auto, unfolding(crate::specs::Script::area_lines))]
pub(crate) fn area_lines() -> &'static [u8]
    ensures { result.now ≡ area_lines }
{
    b"area(s::S) = 0\n"
}

/// The function of two values, which has a method for two values of one type.
#[tactic(auto, unfolding(crate::specs::Script::both_lines))]
pub(crate) fn both_lines() -> &'static [u8]
    ensures { result.now ≡ both_lines }
{
    b"both(a::S, b::S) = 0\nboth(a::T, b::T) where T<:S = area(a) + area(b)\n"
}

/// The function that defines a method anew.
#[tactic(auto, unfolding(crate::specs::Script::redo_lines))]
pub(crate) fn redo_lines() -> &'static [u8]
    ensures { result.now ≡ redo_lines }
{
    b"function redo()\n    @eval area(s::P0) = s.x + 0\n    nothing\nend\n"
}

/// The function that a task runs, which makes its rounds one after another.
#[tactic(auto, unfolding(crate::specs::Script::work_lines))]
pub(crate) fn work_lines() -> &'static [u8]
    ensures { result.now ≡ work_lines }
{
    b"function work(n::Int64)
    if n <= 0
        return 0
    end
    redo()
    one = Base.invokelatest(both, P0(n), P0(1))
    one + work(n - 1)
end
"
}

/// A number in decimal.
fn append_number(out: &mut Row<u8>, number: u32) -> Result<(), AllocError>
    ensures { OnOk result (out.new ≡ out.old ++ decimal number) }
{
    let mut buffer = Buffer::new();
    out.append(buffer.format(number).as_bytes())
}

/// A number between two texts.
fn append_around(
    out: &mut Row<u8>,
    before: &[u8],
    number: u32,
    after: &[u8],
) -> Result<(), AllocError>
    ensures { OnOk result (out.new ≡ out.old ++ around before.now number after.now) }
{
    out.append(before)?;
    append_number(out, number)?;
    out.append(after)
}

/// Two numbers between texts.
fn append_two(
    out: &mut Row<u8>,
    before: &[u8],
    first: u32,
    between: &[u8],
    second: u32,
    after: &[u8],
) -> Result<(), AllocError>
    ensures { OnOk result (out.new ≡ out.old ++ around before.now first (around between.now second after.now)) }
{
    out.append(before)?;
    append_number(out, first)?;
    append_around(out, between, second, after)
}

/// The types.
pub(crate) fn append_structs(out: &mut Row<u8>, count: u32) -> Result<(), AllocError>
    ensures { OnOk result (out.new ≡ out.old ++ for_each struct_line count) }
{
    for i in 0..count {
        append_around(out, b"struct P", i, b" <: S; x::Int64 end\n")?;
    }
    Ok(())
}

/// The method of each type.
pub(crate) fn append_areas(out: &mut Row<u8>, count: u32) -> Result<(), AllocError>
    ensures { OnOk result (out.new ≡ out.old ++ for_each area_line count) }
{
    for i in 0..count {
        append_two(out, b"area(s::P", i, b") = s.x + ", i, b"\n")?;
    }
    Ok(())
}

/// The tasks, each with so many rounds.
pub(crate) fn append_spawns(out: &mut Row<u8>, count: u32, rounds: u32) -> Result<(), AllocError>
    ensures { OnOk result (out.new ≡ out.old ++ for_each (spawn_line rounds) count) }
{
    for i in 0..count {
        append_two(out, b"t", i, b" = Threads.@spawn work(", rounds, b")\n")?;
    }
    Ok(())
}

/// What each task gives.
pub(crate) fn append_prints(out: &mut Row<u8>, count: u32) -> Result<(), AllocError>
    ensures { OnOk result (out.new ≡ out.old ++ for_each print_line count) }
{
    for i in 0..count {
        append_around(out, b"println(fetch(t", i, b"))\n")?;
    }
    Ok(())
}
