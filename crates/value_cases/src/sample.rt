//! The types of the cases, as a table and as a program that has their names.

ghost use Rattle.std.specs.Prelude.{◌≡◌, ◌++◌, ◌∷◌, [], IfOk, OnOk};
ghost use Rattle.jl_model.specs.Ancestors.{named};
ghost use Rattle.jl_model.specs.Refusals.{IsReady};
ghost use Rattle.jl_model.specs.Rows.{free};
ghost use Rattle.jl_value.specs.Samples.{struct_decl, field_of, pair_decl, box_decl, square_decl, wood_decl, part_decl, sample_types};

use jl_model::ty::{Bound, Bounds, Bytes, Decl, DeclKind, Decls, Field, Fields, Ty, Tys};
use jl_program::tree::{Deletes, Exprs, Items, Names, Program, Sites};
use jl_types::Table;
use std::alloc::{AllocError, Global};

/// The number of `Int64`.
const INT64: u32 = 4;

/// A name as a list of bytes.
pub fn bytes(alloc: Global, name: &[u8]) -> Result<Bytes, AllocError>
    ensures { IfOk result (λ b. b ≡ name.now) }
{
    Bytes::from_vec(alloc, Vec::from_slice(alloc, name)?)
}

/// A field. Its type is let go by a call: a drop at a `?` is unrolled into the proof.
fn field(alloc: Global, name: &[u8], ty: Ty) -> Result<Field, AllocError>
    ensures { IfOk result (λ f. f ≡ field_of name.now ty) }
{
    match bytes(alloc, name) {
        Ok(name) => Ok(Field { name, ty }),
        Err(error) => {
            drop(ty);
            Err(error)
        }
    }
}

/// The bounds of a parameter that has none.
fn free() -> Bound
    ensures { result ≡ free }
{
    Bound {
        low: Ty::Union(Tys::empty()),
        high: Ty::Any,
    }
}

/// The declaration of a struct without a parent.
fn struct_decl(
    alloc: Global,
    name: &[u8],
    params: Bounds,
    fields: Fields,
) -> Result<Decl, AllocError>
    ensures { IfOk result (λ d. d ≡ struct_decl name.now params fields) }
{
    let name = bytes(alloc, name)?;
    Ok(Decl {
        name,
        kind: DeclKind::Struct,
        params,
        parent: Ty::Any,
        fields,
    })
}

/// A type without arguments.
pub fn named(number: u32) -> Ty
    ensures { result ≡ named number }
{
    Ty::Nominal(number, Tys::empty())
}

fn one_field(alloc: Global, only: Field) -> Result<Fields, AllocError>
    ensures { IfOk result (λ f. f ≡ only ∷ []) }
{
    Fields::from_vec(alloc, vec![in alloc; only]?)
}

/// Two fields of these types.
fn two_fields(
    alloc: Global,
    first: &[u8],
    first_type: Ty,
    second: &[u8],
    second_type: Ty,
) -> Result<Fields, AllocError>
    ensures { IfOk result (λ f. f ≡ field_of first.now first_type ∷ field_of second.now second_type ∷ []) }
{
    let fields = vec![in alloc;
        field(alloc, first, first_type)?,
        field(alloc, second, second_type)?,
    ]?;
    Fields::from_vec(alloc, fields)
}

/// `struct P; a; b end`
fn pair_decl(alloc: Global) -> Result<Decl, AllocError>
    ensures { IfOk result (λ d. d ≡ pair_decl) }
{
    let fields = two_fields(alloc, b"a", Ty::Any, b"b", Ty::Any)?;
    struct_decl(alloc, b"P", Bounds::empty(), fields)
}

/// `struct Box{T}; x::T end`
fn box_decl(alloc: Global) -> Result<Decl, AllocError>
    ensures { IfOk result (λ d. d ≡ box_decl) }
{
    let params = Bounds::from_vec(alloc, vec![in alloc; free()]?)?;
    let fields = one_field(alloc, field(alloc, b"x", Ty::Var(0))?)?;
    struct_decl(alloc, b"Box", params, fields)
}

/// `struct Square; side::Int64 end`
fn square_decl(alloc: Global) -> Result<Decl, AllocError>
    ensures { IfOk result (λ d. d ≡ square_decl) }
{
    let fields = one_field(alloc, field(alloc, b"side", named(INT64))?)?;
    struct_decl(alloc, b"Square", Bounds::empty(), fields)
}

/// `struct Wood end`
fn wood_decl(alloc: Global) -> Result<Decl, AllocError>
    ensures { IfOk result (λ d. d ≡ wood_decl) }
{
    struct_decl(alloc, b"Wood", Bounds::empty(), Fields::empty())
}

/// `struct Part{S, M}; shape::S; made::M end`
fn part_decl(alloc: Global) -> Result<Decl, AllocError>
    ensures { IfOk result (λ d. d ≡ part_decl) }
{
    let params = Bounds::from_vec(alloc, vec![in alloc; free(), free()]?)?;
    let fields = two_fields(alloc, b"shape", Ty::Var(0), b"made", Ty::Var(1))?;
    struct_decl(alloc, b"Part", params, fields)
}

/// The built-in types, `P`, `Box`, `Square`, `Wood` and `Part`.
#[tactic(auto, using(jl_value::proofs::SampleLemmas::samples))]
pub fn sample_table(alloc: Global) -> Result<Table, AllocError>
    ensures { IfOk result (λ t. t ≡ sample_types) }
{
    let mut table = Table::new(alloc)?;
    table.add(alloc, pair_decl(alloc)?)?;
    table.add(alloc, box_decl(alloc)?)?;
    table.add(alloc, square_decl(alloc)?)?;
    table.add(alloc, wood_decl(alloc)?)?;
    table.add(alloc, part_decl(alloc)?)?;
    Ok(table)
}

/// The names of the declared types, of which the last is in no table.
static TYPES: [&str; 6] = ["P", "Box", "Square", "Wood", "Part", "Q"];

/// The names of the functions: those of the prelude, and `f`.
static FUNCTIONS: [&str; 13] = [
    "+", "-", "*", "div", "rem", "==", "!=", "<", "<=", ">", ">=", "!", "f",
];

/// A struct of each name. Texts ask nothing else of it.
fn decls(alloc: Global) -> Result<Decls, AllocError> {
    let mut decls = Vec::new(alloc);
    for name in &TYPES {
        let decl = struct_decl(alloc, name.as_bytes(), Bounds::empty(), Fields::empty())?;
        decls.push(decl)?;
    }
    Decls::from_vec(alloc, decls)
}

/// The names of the functions as lists of bytes.
fn functions(alloc: Global) -> Result<Names, AllocError> {
    let mut names = Vec::new(alloc);
    for name in &FUNCTIONS {
        names.push(bytes(alloc, name.as_bytes())?)?;
    }
    Names::from_vec(alloc, names)
}

/// A program with these names, and nothing else.
pub fn sample_program(alloc: Global) -> Result<Program, AllocError> {
    let decls = decls(alloc)?;
    let functions = functions(alloc)?;
    Ok(Program {
        decls,
        functions,
        sites: Sites::empty(),
        spawns: Exprs::empty(),
        deletes: Deletes::empty(),
        top: Items::empty(),
    })
}
