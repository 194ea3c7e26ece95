//! The signatures of the fields of the structs whose inferred constructors a program calls.

ghost use Rattle.std.specs.Prelude.{◌≡◌, ◌<◌, IfOk, MatchOption, true, false, length};
ghost use Rattle.jl_sig.specs.Fields.{fields_of};
ghost use Rattle.jl_sig.specs.Inferred.{AreMarks, IsSmall, AreSmall, IsFieldSig, AreFieldSigs};

use crate::fault::SigFault;
use crate::sig::Sig;
use jl_types::Table;
use std::alloc::{AllocError, Global};

/// Of each type, whether its number is one of these.
fn marks(alloc: Global, table: &Table, called: &[u32]) -> Result<Vec<bool>, AllocError>
    ensures { IfOk result (λ marks. AreMarks table.now called.now marks.items) }
{
    let mut marks = vec![in alloc; false; table.count() as usize]?;
    for name in called {
        let index = *name as usize;
        if index < marks.len() {
            marks[index] = true;
        }
    }
    Ok(marks)
}

/// The signature of the fields of a type, where its inferred constructor is called.
fn field_sig(
    alloc: Global,
    table: &Table,
    name: u32,
    is_called: bool,
) -> Result<Option<Sig>, AllocError>
    requires known { name < length table.now }
    requires small { is_called ≡ true → IsSmall table.now name }
    ensures { IfOk result (λ sig. IsFieldSig table.now is_called name sig) }
{
    if !is_called {
        return Ok(None);
    }
    match Sig::of_fields(alloc, table, name) {
        Ok(sig) => Ok(Some(sig)),
        Err(SigFault::Memory) => Err(AllocError),
        Err(_) => unreachable!(),
    }
}

/// The signatures of the fields of the types that are called, by their numbers.
pub fn field_sigs(
    alloc: Global,
    table: &Table,
    called: &[u32],
) -> Result<Vec<Option<Sig>>, AllocError>
    requires { AreSmall table.now called.now }
    ensures { IfOk result (λ sigs. AreFieldSigs table.now called.now sigs.items) }
{
    let marks = marks(alloc, table, called)?;
    let mut sigs = Vec::new(alloc);
    for name in 0..table.count() {
        let sig = field_sig(alloc, table, name, marks[name as usize])?;
        sigs.push(sig)?;
    }
    Ok(sigs)
}
