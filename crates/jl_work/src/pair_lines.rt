//! The lines that tell between which definitions calls are ambiguous.

ghost use Rattle.std.specs.Prelude.{◌≡◌, ◌++◌, [], IfOk, OnOk, codes, decimal, length, slice_get};
ghost use Rattle.jl_model.specs.declared.ty.Ty.TheVariants.{Tuple};
ghost use Rattle.jl_program.specs.Text.{function_name, type_text};
ghost use Rattle.jl_calculus.specs.Legal.{MayStand};
ghost use Rattle.jl_calculus.specs.World.{changes, site_in};
ghost use Rattle.jl_work.specs.Told.{made_at, function_in, name_of, pair_line, pair_lines, unexamined_line, unexamined_lines, count_line, pairs_text};

use crate::place::{append_number, append_world};
use jl_ambig::{Pair, changes_of};
use jl_calculus::history::{Change, Event};
use jl_model::rows::Row;
use jl_model::ty::{Bytes, Ty};
use jl_program::tree::Program;
use jl_sig::Ready;
use jl_text::append_type;
use std::alloc::{AllocError, Global};

/// The site of the definition that made a world.
fn site_at(made: &[Change], world: u32) -> u32
    ensures { result ≡ site_in (made_at made.now world) }
{
    if world == 0 {
        return 0;
    }
    match made.get(world as usize - 1) {
        Some(Change::Def(site)) => *site,
        Some(Change::Del(_)) => 0,
        None => 0,
    }
}

/// The name of the function of a site.
fn function_at(program: &Program, site: u32) -> &[u8]
    ensures { result.now ≡ function_name program.now (function_in (slice_get program.now.sites site)) }
{
    let function = match program.sites.as_slice().get(site as usize) {
        Some(site) => site.function,
        None => 0,
    };
    match program.functions.as_slice().get(function as usize) {
        Some(name) => name.as_slice(),
        None => &[],
    }
}

/// The name of the function of a definition.
fn name_of<'p>(program: &'p Program, made: &[Change], definition: u32) -> &'p [u8]
    ensures { result.now ≡ name_of program.now made.now definition }
{
    function_at(program, site_at(made, definition))
}

/// A number with the text after it.
fn append_with(out: &mut Row<u8>, number: u32, text: &[u8]) -> Result<(), AllocError>
    ensures { OnOk result (out.new ≡ out.old ++ (decimal number ++ text.now)) }
{
    append_world(out, number)?;
    out.append(text)
}

/// The types at which a call is ambiguous, at the end of a line.
fn append_types(out: &mut Row<u8>, program: &Program, pair: &Pair) -> Result<(), AllocError>
    ensures { OnOk result (out.new ≡ out.old ++ (type_text program.now (Tuple pair.now.types) ++ codes "\n")) }
{
    let tuple = Ty::Tuple(pair.types.copy()?);
    append_type(out, program, &tuple)?;
    out.append(b"\n")
}

/// The line of a pair of definitions of a function of this name.
fn append_pair(
    out: &mut Row<u8>,
    program: &Program,
    name: &[u8],
    pair: &Pair,
) -> Result<(), AllocError>
    ensures { OnOk result (out.new ≡ out.old ++ pair_line program.now name.now pair.now) }
{
    out.append(name)?;
    out.append(b" definitions ")?;
    append_with(out, pair.a, b" and ")?;
    append_with(out, pair.b, b" at ")?;
    append_types(out, program, pair)
}

/// The lines of pairs.
fn append_pairs(
    out: &mut Row<u8>,
    program: &Program,
    made: &[Change],
    pairs: &[Pair],
) -> Result<(), AllocError>
    ensures { OnOk result (out.new ≡ out.old ++ pair_lines program.now made.now pairs.now) }
{
    for pair in pairs {
        append_pair(out, program, name_of(program, made, pair.a), pair)?;
    }
    Ok(())
}

/// The line of a definition that is not examined.
fn append_unexamined(out: &mut Row<u8>, definition: u32) -> Result<(), AllocError>
    ensures { OnOk result (out.new ≡ out.old ++ unexamined_line definition) }
{
    out.append(b"definition ")?;
    append_with(out, definition, b" not examined\n")
}

/// The lines of the definitions that are not examined.
fn append_left(out: &mut Row<u8>, left: &[u32]) -> Result<(), AllocError>
    ensures { OnOk result (out.new ≡ out.old ++ unexamined_lines left.now) }
{
    for definition in left {
        append_unexamined(out, *definition)?;
    }
    Ok(())
}

/// How many pairs there are.
fn append_count(out: &mut Row<u8>, pairs: &[Pair]) -> Result<(), AllocError>
    ensures { OnOk result (out.new ≡ out.old ++ count_line (length pairs.now)) }
{
    out.append(b"pairs ")?;
    append_number(out, pairs.len() as u64)?;
    out.append(b"\n")
}

/// The lines of pairs.
fn pairs_of(
    alloc: Global,
    ready: &Ready,
    events: &[Event],
    pairs: &[Pair],
) -> Result<Row<u8>, AllocError>
    requires { MayStand ready.now events.now }
    ensures { IfOk result (λ out. out ≡ pair_lines ready.now (changes events.now) pairs.now) }
{
    let made = changes_of(alloc, ready, events)?;
    let mut out = Row::new(alloc);
    append_pairs(&mut out, ready.program(), made.all(), pairs)?;
    Ok(out)
}

/// The lines of pairs and of definitions that are not examined, and how many pairs there are.
pub(crate) fn pairs_text(
    alloc: Global,
    ready: &Ready,
    events: &[Event],
    pairs: &[Pair],
    left: &[u32],
) -> Result<Bytes, AllocError>
    requires { MayStand ready.now events.now }
    ensures { IfOk result (λ text. text ≡ pairs_text ready.now events.now pairs.now left.now) }
{
    let mut out = pairs_of(alloc, ready, events, pairs)?;
    append_left(&mut out, left)?;
    append_count(&mut out, pairs)?;
    out.into_shared(alloc)
}
