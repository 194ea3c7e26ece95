//! The types that a text names, and the function that one names.

ghost use Rattle.std.specs.Prelude.{◌≡◌, ◌++◌, ℕ, IfOk, MatchOption, Some, None, drop, true, false};
ghost use Rattle.jl_causes.specs.KeyTexts.{names_of, word_at, is_mark, begins, place_of, bare, made, type_at, types_at, parts_at, closed_in, tuple_in, followed, IsReadTo, AreReadTo};

use jl_model::rows::Row;
use jl_model::shared::SharedList;
use jl_model::ty::{Ty, Tys};
use jl_program::tree::Program;
use jl_types::Table;
use std::alloc::{AllocError, Global};

/// Whether a byte ends a name.
fn is_mark(byte: u8) -> bool
    ensures { result ≡ is_mark byte }
{
    byte == b'{' || byte == b'}' || byte == b','
}

/// What stands before the first mark, and the rest.
fn split_word(text: &[u8]) -> (&[u8], &[u8])
    ensures { (result.0.now, result.1.now) ≡ word_at text.now }
{
    for (end, byte) in text.iter().enumerate() {
        if is_mark(*byte) {
            return text.split_at(end);
        }
    }
    (text, &[])
}

/// What follows this byte, where it stands in front.
fn after(mark: u8, text: &[u8]) -> Option<&[u8]>
    ensures { MatchOption result (begins mark text.now ≡ false) (λ rest. (begins mark text.now ≡ true) × (rest.now ≡ drop 1 text.now)) }
{
    match text {
        [] => None,
        [first, rest @ ..] => { if *first == mark { Some(rest) } else { None } }
    }
}

/// The first type of this name.
fn find_type(table: &Table, name: &[u8]) -> Option<u32>
    ensures { result ≡ place_of (names_of table.now) name.now }
{
    for number in 0..table.count() {
        if table.decl(number).name.as_slice() == name {
            return Some(number);
        }
    }
    None
}

/// The type that a name without braces is.
fn find_bare(table: &Table, name: &[u8]) -> Option<Ty>
    ensures { result ≡ bare (names_of table.now) name.now }
{
    if name == b"Any".as_slice() {
        return Some(Ty::Any);
    }
    match find_type(table, name) {
        Some(number) => Some(Ty::Nominal(number, SharedList::empty())),
        None => None,
    }
}

/// The type that a name with types in braces is.
fn make_braced(
    alloc: Global,
    table: &Table,
    name: &[u8],
    parts: Row<Ty>,
) -> Result<Option<Ty>, AllocError>
    ensures { IfOk result (λ found. found ≡ made (names_of table.now) name.now parts) }
{
    let parts = parts.into_shared(alloc)?;
    if name == b"Union".as_slice() {
        return Ok(Some(Ty::Union(parts)));
    }
    if name == b"Tuple".as_slice() {
        return Ok(Some(Ty::Tuple(parts)));
    }
    if parts.len() == 0 {
        return Ok(None);
    }
    match find_type(table, name) {
        Some(number) => Ok(Some(Ty::Nominal(number, parts))),
        None => Ok(None),
    }
}

/// A type that was read, with what follows it.
fn follow(found: Option<Ty>, rest: &[u8]) -> Option<(Ty, &[u8])>
    ensures { IsReadTo (followed found rest.now) result }
{
    match found {
        Some(ty) => Some((ty, rest)),
        None => None,
    }
}

/// The type at the front of a text, with so much room for types in braces, and what follows it.
#[cycle(reading)]
fn read_at<'a>(
    alloc: Global,
    table: &Table,
    room: u32,
    text: &'a [u8],
) -> Result<Option<(Ty, &'a [u8])>, AllocError>
    ensures { IfOk result (λ found. IsReadTo (type_at (names_of table.now) (types_at (names_of table.now) room) text.now) found) }
{
    let (name, rest) = split_word(text);
    let Some(inner) = after(b'{', rest) else {
        return Ok(follow(find_bare(table, name), rest));
    };
    let mut parts = Row::new(alloc);
    if let Some(rest) = after(b'}', inner) {
        let made = make_braced(alloc, table, name, parts)?;
        return Ok(follow(made, rest));
    }
    let Some(rest) = read_parts(alloc, table, room, inner, &mut parts)? else {
        drop(parts);
        return Ok(None);
    };
    let made = make_braced(alloc, table, name, parts)?;
    Ok(follow(made, rest))
}

/// The types in braces up to the closing brace, of at most so many nodes, and what follows them.
#[cycle(reading)]
fn read_parts<'a>(
    alloc: Global,
    table: &Table,
    room: u32,
    text: &'a [u8],
    parts: &mut Row<Ty>,
) -> Result<Option<&'a [u8]>, AllocError>
    ensures { IfOk result (λ rest. AreReadTo (types_at (names_of table.now) room text.now) parts.old parts.new rest) }
{
    if room == 0 {
        return Ok(None);
    }
    let Some((ty, rest)) = read_at(alloc, table, room - 1, text)? else {
        return Ok(None);
    };
    parts.push(ty)?;
    if let Some(rest) = after(b'}', rest) {
        return Ok(Some(rest));
    }
    let Some(rest) = after(b',', rest) else {
        return Ok(None);
    };
    let Some(rest) = after(b' ', rest) else {
        return Ok(None);
    };
    let rest = read_parts(alloc, table, room - 1, rest, parts)?;
    Ok(rest)
}

/// As many types in braces at most, each with so much room, up to the closing brace, and what follows them. The stack grows with
/// what a type has room for, and not with the text.
fn read_few<'a>(
    alloc: Global,
    table: &Table,
    many: u32,
    room: u32,
    text: &'a [u8],
    parts: &mut Row<Ty>,
) -> Result<Option<&'a [u8]>, AllocError>
    ensures { IfOk result (λ rest. AreReadTo (parts_at (names_of table.now) many room text.now) parts.old parts.new rest) }
{
    if many == 0 {
        return Ok(None);
    }
    let Some((ty, rest)) = read_at(alloc, table, room, text)? else {
        return Ok(None);
    };
    parts.push(ty)?;
    if let Some(rest) = after(b'}', rest) {
        return Ok(Some(rest));
    }
    let Some(rest) = after(b',', rest) else {
        return Ok(None);
    };
    let Some(rest) = after(b' ', rest) else {
        return Ok(None);
    };
    let rest = read_few(alloc, table, many - 1, room, rest, parts)?;
    Ok(rest)
}

/// The types before the closing brace with which a text ends.
fn read_closed(
    alloc: Global,
    table: &Table,
    many: u32,
    room: u32,
    text: &[u8],
) -> Result<Option<Tys>, AllocError>
    ensures { IfOk result (λ found. found ≡ closed_in (names_of table.now) many room text.now) }
{
    if let Some(rest) = after(b'}', text) {
        if rest.len() == 0 {
            return Ok(Some(SharedList::empty()));
        }
        return Ok(None);
    }
    let mut parts = Row::new(alloc);
    let Some(rest) = read_few(alloc, table, many, room, text, &mut parts)? else {
        return Ok(None);
    };
    if rest.len() == 0 {
        let types = parts.into_shared(alloc)?;
        return Ok(Some(types));
    }
    Ok(None)
}

/// The types of the tuple that a whole text is that of: as many at most, each of at most so many nodes.
pub(crate) fn read_tuple(
    alloc: Global,
    table: &Table,
    many: u32,
    room: u32,
    text: &[u8],
) -> Result<Option<Tys>, AllocError>
    ensures { IfOk result (λ found. found ≡ tuple_in (names_of table.now) many room text.now) }
{
    let (name, rest) = split_word(text);
    if name == b"Tuple".as_slice() {
        let Some(inner) = after(b'{', rest) else {
            return Ok(None);
        };
        let types = read_closed(alloc, table, many, room, inner)?;
        return Ok(types);
    }
    Ok(None)
}

/// The first function of this name. A number that 32 bits don't hold is answered as want of memory.
pub(crate) fn find_function(program: &Program, name: &[u8]) -> Result<Option<u32>, AllocError>
    ensures { IfOk result (λ found. found ≡ place_of program.now.functions name.now) }
{
    for (place, function) in program.functions.as_slice().iter().enumerate() {
        if function.as_slice() == name {
            if place > u32::MAX as usize {
                return Err(AllocError);
            }
            return Ok(Some(place as u32));
        }
    }
    Ok(None)
}
