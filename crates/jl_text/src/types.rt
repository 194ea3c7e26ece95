//! The texts of types (Julia manual, Types: Parametric Types, UnionAll Types).

ghost use Rattle.std.specs.Prelude.{◌≡◌, ◌+◌, ◌++◌, map, IfOk, OnOk};
ghost use Rattle.jl_program.specs.Text.{type_name, type_text, in_braces, arguments, joined, types_text};

use jl_model::builtin::{BOOL, BUILTIN_TYPES, INT64, INTEGER, NOTHING, NUMBER, REAL, SIGNED, TASK};
use jl_model::rows::Row;
use jl_model::ty::{Bytes, Ty};
use jl_program::tree::Program;
use std::alloc::{AllocError, Global};

/// The name of a declared type, counted from 0, and no bytes where there is none.
#[tactic(auto, using(crate::proofs::Names::name_declared))]
fn declared_name(program: &Program, place: usize) -> &[u8]
    ensures { result.now ≡ type_name program.now (place + BUILTIN_TYPES) }
{
    match program.decls.as_slice().get(place) {
        Some(decl) => decl.name.as_slice(),
        None => &[],
    }
}

/// The name of a nominal type, and no bytes where there is none of this number.
fn type_name(program: &Program, number: u32) -> &[u8]
    ensures { result.now ≡ type_name program.now number }
{
    match number {
        NUMBER => b"Number",
        REAL => b"Real",
        INTEGER => b"Integer",
        SIGNED => b"Signed",
        INT64 => b"Int64",
        BOOL => b"Bool",
        NOTHING => b"Nothing",
        TASK => b"Task",
        declared => declared_name(program, (declared - BUILTIN_TYPES) as usize),
    }
}

/// Types with ", " between them.
#[cycle(types)]
fn append_joined(out: &mut Row<u8>, program: &Program, types: &[Ty]) -> Result<(), AllocError>
    ensures { OnOk result (out.new ≡ out.old ++ joined (map (type_text program.now) types.now)) }
{
    for (i, ty) in types.iter().enumerate() {
        if i > 0 {
            out.append(b", ")?;
        }
        append_type(out, program, ty)?;
    }
    Ok(())
}

/// Types with ", " between them, in braces.
#[cycle(types)]
fn append_in_braces(out: &mut Row<u8>, program: &Program, types: &[Ty]) -> Result<(), AllocError>
    ensures { OnOk result (out.new ≡ out.old ++ in_braces (map (type_text program.now) types.now)) }
{
    out.append(b"{")?;
    append_joined(out, program, types)?;
    out.append(b"}")
}

/// The arguments of a nominal type, of which nothing is written where it has none.
#[cycle(types)]
fn append_arguments(out: &mut Row<u8>, program: &Program, types: &[Ty]) -> Result<(), AllocError>
    ensures { OnOk result (out.new ≡ out.old ++ arguments (map (type_text program.now) types.now)) }
{
    if types.is_empty() {
        return Ok(());
    }
    append_in_braces(out, program, types)
}

/// Appends the text of a type: `Any`, `Union{Int64, Nothing}`, `Tuple{Int64, Bool}`, `Int64`, `Box{Int64}`, and `_` for
/// a variable. A type whose number the program does not have is written without a name. The one error is want of memory.
#[cycle(types)]
pub fn append_type(out: &mut Row<u8>, program: &Program, ty: &Ty) -> Result<(), AllocError>
    ensures { OnOk result (out.new ≡ out.old ++ type_text program.now ty.now) }
{
    match ty {
        Ty::Any => out.append(b"Any"),
        Ty::Union(members) => {
            out.append(b"Union")?;
            append_in_braces(out, program, members.as_slice())
        }
        Ty::Tuple(parts) => {
            out.append(b"Tuple")?;
            append_in_braces(out, program, parts.as_slice())
        }
        Ty::Nominal(number, arguments) => {
            out.append(type_name(program, *number))?;
            append_arguments(out, program, arguments.as_slice())
        }
        Ty::Var(_) => out.append(b"_"),
    }
}

/// The types of arguments, as `(::Int64, ::Bool)`.
pub(crate) fn append_argument_types(
    out: &mut Row<u8>,
    program: &Program,
    types: &[Ty],
) -> Result<(), AllocError>
    ensures { OnOk result (out.new ≡ out.old ++ types_text program.now types.now) }
{
    out.append(b"(")?;
    for (i, ty) in types.iter().enumerate() {
        if i > 0 {
            out.append(b", ")?;
        }
        out.append(b"::")?;
        append_type(out, program, ty)?;
    }
    out.append(b")")
}

/// The text of a type, as [`append_type`] writes it. The one error is want of memory.
pub fn type_text(alloc: Global, program: &Program, ty: &Ty) -> Result<Bytes, AllocError>
    ensures { IfOk result (λ t. t ≡ type_text program.now ty.now) }
{
    let mut out = Row::new(alloc);
    append_type(&mut out, program, ty)?;
    out.into_shared(alloc)
}
