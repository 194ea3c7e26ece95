//! The table of the sites, spawns and deletions of a script, a line each.

ghost use Rattle.std.specs.Prelude.{◌≡◌, ◌++◌, decimal, codes, List, IfOk, OnOk};
ghost use Rattle.jl_sites.specs.Places.{script_places};
ghost use Rattle.jl_sites.specs.Spots.{IsReached, spot_text, spot_at};
ghost use Rattle.jl_sites.specs.Table.{named_line, spawn_line, table, script_table};

use crate::gather::put_script;
use crate::place::{Function, Place, function_name};
use crate::spot::{Spot, beginning, move_to};
use itoa::Buffer;
use jl_grammar::tree::Script;
use jl_model::rows::Row;
use jl_model::ty::Bytes;
use std::alloc::{AllocError, Global};

/// The number of a script's first site: the prelude has those before it.
const FIRST_SITE: u64 = 14;

/// A number in decimal.
fn append_number(out: &mut Row<u8>, number: u64) -> Result<(), AllocError>
    ensures { OnOk result (out.new ≡ out.old ++ decimal number) }
{
    let mut buffer = Buffer::new();
    out.append(buffer.format(number).as_bytes())
}

/// A line and a column, and the line's end.
fn append_spot(out: &mut Row<u8>, spot: Spot) -> Result<(), AllocError>
    ensures { OnOk result (out.new ≡ out.old ++ spot_text spot) }
{
    out.append(b" ")?;
    append_number(out, spot.line)?;
    out.append(b" ")?;
    append_number(out, spot.column)?;
    out.append(b"\n")
}

/// The line of a site or of a deletion, with its first word.
fn append_named(
    out: &mut Row<u8>,
    word: &[u8],
    number: u64,
    function: &Function,
    spot: Spot,
) -> Result<(), AllocError>
    ensures { OnOk result (out.new ≡ out.old ++ named_line word.now number function.now spot) }
{
    out.append(word)?;
    append_number(out, number)?;
    out.append(b" ")?;
    out.append(function_name(function))?;
    append_spot(out, spot)
}

/// The line of a spawn.
fn append_spawn(out: &mut Row<u8>, number: u64, spot: Spot) -> Result<(), AllocError>
    ensures { OnOk result (out.new ≡ out.old ++ spawn_line number spot) }
{
    out.append(b"spawn ")?;
    append_number(out, number)?;
    append_spot(out, spot)
}

/// The lines of these places of a source.
fn append_places(out: &mut Row<u8>, bytes: &[u8], places: &[Place]) -> Result<(), AllocError>
    ensures { OnOk result (out.new ≡ out.old ++ table bytes.now FIRST_SITE 0 0 places.now) }
{
    let mut cursor = beginning();
    let mut sites = FIRST_SITE;
    let mut spawns = 0;
    let mut deletes = 0;
    for place in places {
        match place {
            Place::Site(at, function) => {
                cursor = move_to(cursor, bytes, *at);
                append_named(out, b"site ", sites, function, cursor.spot)?;
                sites += 1;
            }
            Place::Spawn(at) => {
                cursor = move_to(cursor, bytes, *at);
                append_spawn(out, spawns, cursor.spot)?;
                spawns += 1;
            }
            Place::Delete(at, function) => {
                cursor = move_to(cursor, bytes, *at);
                append_named(out, b"delete ", deletes, function, cursor.spot)?;
                deletes += 1;
            }
        }
    }
    Ok(())
}

/// The table of a script that these bytes are.
pub(crate) fn table(alloc: Global, bytes: &[u8], script: &Script) -> Result<Bytes, AllocError>
    ensures { IfOk result (λ text. text ≡ script_table bytes.now script.now) }
{
    let mut places = Row::new(alloc);
    put_script(&mut places, script)?;
    let mut out = Row::new(alloc);
    append_places(&mut out, bytes, places.as_slice())?;
    out.into_shared(alloc)
}
