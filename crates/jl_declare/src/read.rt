//! Declarations as they are read.

ghost use Rattle.std.specs.Prelude.{◌≡◌, ◌++◌, ◌∷◌, [], ◌&&◌, not, if◌then◌else◌, map, drop, IfOk, OnOk};
ghost use Rattle.jl_model.specs.AllRows.{each_var};
ghost use Rattle.jl_model.specs.Rows.{free};
ghost use Rattle.jl_grammar.specs.declared.tree.Field.{Field as FieldOf};
ghost use Rattle.jl_written.specs.Reads.{typed, types};
ghost use Rattle.jl_written.specs.Signatures.{option_reads, all_read};
ghost use Rattle.jl_declare.specs.Declaration.{fields_of, heading, field_of, outline, declaration};

use crate::copies::copy_bounds;
use jl_grammar::tree::{Field as FieldText, Header};
use jl_model::rows::Row;
use jl_model::shared::SharedList;
use jl_model::ty::{Bound, Bounds, Bytes, Decl, DeclKind, Field, Fields, Ty, Tys};
use jl_names::decls::{DeclList, FirstDecls, copy_decl};
use jl_typeread::tree::{TypeText, VarText};
use jl_written::names::to_u32;
use jl_written::reading::Reading;
use jl_written::reads::{bind_first, read_alone};
use jl_written::signatures::no_reading;
use jl_written::vars::{Around, TypeVars};
use std::alloc::{AllocError, Global};

/// A declaration up to its fields: its visible parameters, what it is so far, and what is known behind it.
#[derive(Drop)]
pub struct Heading {
    pub vars: TypeVars,
    pub own: Decl,
    pub reading: Reading,
}

/// A declaration as it is read, or its outline where it is no term, and what is known behind it.
#[derive(Drop)]
pub struct ReadDecl {
    pub decl: Decl,
    pub reading: Reading,
    /// Whether all arguments in it are written, so that its parameters are its only variables.
    pub whole: bool,
}

/// A type that may be left out.
fn read_option(
    alloc: Global,
    around: &Around<'_>,
    reading: &mut Reading,
    text: &Option<TypeText>,
) -> Result<Ty, AllocError>
    ensures { IfOk result (λ t. typed t reading.new
        ≡ option_reads around.now.decls.now text.now around.now.first reading.old) }
{
    match text {
        None => Ok(Ty::Any),
        Some(text) => read_alone(alloc, around, reading, text),
    }
}

/// A declaration up to its fields, behind others.
fn read_heading(
    alloc: Global,
    decls: &FirstDecls<'_>,
    kind: DeclKind,
    header: &Header,
) -> Result<Heading, AllocError>
    ensures { IfOk result (λ h. h ≡ heading decls.now kind header.now) }
{
    let mut reading = no_reading(alloc);
    let vars = bind_first(alloc, decls, &mut reading, header.params.as_slice())?;
    let params = copy_bounds(alloc, reading.vars.as_slice())?;
    let around = Around::within(decls, &vars);
    let parent = read_option(alloc, &around, &mut reading, &header.parent)?;
    let own = Decl {
        name: header.name.bytes.copy()?,
        kind,
        params,
        parent,
        fields: Fields::empty(),
    };
    Ok(Heading { vars, own, reading })
}

/// The types of fields.
fn read_types(
    alloc: Global,
    around: &Around<'_>,
    reading: &mut Reading,
    fields: &[FieldText],
) -> Result<Row<Ty>, AllocError>
    ensures { IfOk result (λ ts. types ts reading.new
        ≡ all_read around.now.decls.now (map (λ (f : FieldOf). f.ty) fields.now)
        around.now.first reading.old) }
{
    let mut tys = Row::new(alloc);
    for field in fields {
        let ty = read_option(alloc, around, reading, &field.ty)?;
        tys.push(ty)?;
    }
    Ok(tys)
}

/// All but the first.
fn after_first(tys: &[Ty]) -> &[Ty]
    ensures { result.now ≡ drop 1 tys.now }
{
    match tys {
        [] => tys,
        [_, rest @ ..] => rest,
    }
}

/// The fields, each with its type.
fn fields_of(alloc: Global, fields: &[FieldText], tys: &[Ty]) -> Result<Fields, AllocError>
    ensures { IfOk result (λ fs. fs ≡ fields_of fields.now tys.now) }
{
    let mut out = Vec::with_capacity(alloc, fields.len())?;
    let mut left = tys;
    for field in fields {
        match left {
            [] => return SharedList::from_vec(alloc, out),
            [ty, ..] => out.push(Field {
                name: field.name.bytes.copy()?,
                ty: ty.copy()?,
            })?,
        }
        left = after_first(left);
    }
    SharedList::from_vec(alloc, out)
}

/// The types of the fields of a declaration, which sees itself. Where it has none, it need not be seen.
fn own_types(
    alloc: Global,
    decls: &mut DeclList,
    heading: &mut Heading,
    fields: &[FieldText],
) -> Result<Row<Ty>, AllocError>
    ensures means { IfOk result (λ ts. types ts heading.new.reading
        ≡ all_read (decls.old ++ heading.old.own ∷ []) (map (λ (f : FieldOf). f.ty) fields.now)
        heading.old.vars heading.old.reading) }
    ensures own { OnOk result (heading.new.own ≡ heading.old.own) }
    ensures kept { OnOk result (decls.new ≡ decls.old) }
{
    if fields.is_empty() {
        return Ok(Row::new(alloc));
    }
    // At the end for as long as its fields are read: a longer copy of the list for each declaration would be quadratic.
    decls.push(copy_decl(&heading.own)?)?;
    let tys = read_types(
        alloc,
        &Around::within(&decls.all(), &heading.vars),
        &mut heading.reading,
        fields,
    )?;
    decls.pop();
    Ok(tys)
}

/// A declaration with these fields.
fn with_fields(decl: Decl, fields: Fields) -> Decl
    ensures { result ≡ record decl { fields = fields } }
{
    Decl {
        name: decl.name,
        kind: decl.kind,
        params: decl.params,
        parent: decl.parent,
        fields,
    }
}

/// The parameters of an outline, which have no bounds.
fn free_params(alloc: Global, params: &[VarText]) -> Result<Bounds, AllocError>
    ensures { IfOk result (λ bs. bs ≡ map (λ v. free) params.now) }
{
    let mut out = Vec::new(alloc);
    for _ in params {
        out.push(Bound {
            low: Ty::Union(Tys::empty()),
            high: Ty::Any,
        })?;
    }
    SharedList::from_vec(alloc, out)
}

/// The fields of an outline: each parameter is the type of one.
fn param_fields(alloc: Global, name: &Bytes, params: &[Bound]) -> Result<Fields, AllocError>
    ensures { IfOk result (λ fs. fs ≡ each_var (field_of name.now) 0 params.now) }
{
    let mut out = Vec::new(alloc);
    for (number, _) in params.iter().enumerate() {
        out.push(Field {
            name: name.copy()?,
            ty: Ty::Var(to_u32(number)?),
        })?;
    }
    SharedList::from_vec(alloc, out)
}

/// What stands for a declaration that is no term. It has no bounds, and its fields determine all parameters: so a
/// type or a call that names it is tested by its own text and by their number alone, and the fault of the declaration
/// brings no other.
fn outline(alloc: Global, kind: DeclKind, header: &Header) -> Result<Decl, AllocError>
    ensures { IfOk result (λ d. d ≡ outline kind header.now) }
{
    let params = free_params(alloc, header.params.as_slice())?;
    let fields = param_fields(alloc, &header.name.bytes, params.as_slice())?;
    Ok(Decl {
        name: header.name.bytes.copy()?,
        kind,
        params,
        parent: Ty::Any,
        fields,
    })
}

/// A declaration that is a term, and the outline of another.
fn term_or_outline(
    alloc: Global,
    decl: Decl,
    whole: bool,
    unknown: bool,
    header: &Header,
) -> Result<Decl, AllocError>
    ensures { IfOk result (λ d.
        d ≡ (if whole && not unknown then decl else outline decl.kind header.now)) }
{
    if whole && !unknown {
        return Ok(decl);
    }
    let kind = decl.kind;
    drop(decl);
    outline(alloc, kind, header)
}

/// Reads a declaration behind others.
pub fn read(
    alloc: Global,
    decls: &mut DeclList,
    kind: DeclKind,
    header: &Header,
    fields: &[FieldText],
) -> Result<ReadDecl, AllocError>
    ensures means { IfOk result (λ r. r ≡ declaration decls.old kind header.now fields.now) }
    ensures kept { OnOk result (decls.new ≡ decls.old) }
{
    let mut heading = read_heading(alloc, &decls.all(), kind, header)?;
    let tys = own_types(alloc, decls, &mut heading, fields)?;
    let fields = fields_of(alloc, fields, tys.as_slice())?;
    let Heading { vars, own, reading } = heading;
    drop(vars);
    let whole = reading.vars.len() == header.params.len();
    let term = with_fields(own, fields);
    let decl = term_or_outline(alloc, term, whole, reading.unknown, header)?;
    Ok(ReadDecl {
        decl,
        reading,
        whole,
    })
}
