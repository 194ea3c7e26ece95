//! What is known of a script before its statements are read.

ghost use Rattle.std.specs.Prelude.{◌≡◌, map, IfOk};
ghost use Rattle.jl_program.specs.Prelude.{prelude_functions};
ghost use Rattle.jl_declare.specs.Script.{known_of};

use jl_grammar::tree::Item;
use jl_model::ty::Bytes;
use jl_names::decls::DeclList;
use jl_names::list::NameList;
use jl_program::prelude::function_names;
use jl_resolve_forms::defined::{methods_of, types_of, with_names};
use jl_resolve_forms::known::Known;
use jl_resolve_forms::known_decls::KnownDecls;
use std::alloc::{AllocError, Global};

/// The functions of the prelude.
fn prelude_functions(alloc: Global) -> Result<NameList, AllocError>
    ensures { IfOk result (λ ns. ns ≡ prelude_functions) }
{
    let words = function_names();
    let names = texts(alloc, words.as_slice())?;
    Ok(names)
}

/// The bytes of words.
fn texts(alloc: Global, words: &[&str]) -> Result<NameList, AllocError>
    ensures { IfOk result (λ ns. ns ≡ map (λ w. w.now) words.now) }
{
    let mut out = NameList::new(alloc);
    for word in words {
        let bytes = Vec::from_slice(alloc, word.as_bytes())?;
        out.push(Bytes::from_vec(alloc, bytes)?)?;
    }
    Ok(out)
}

/// What is known of a script with these declarations: its functions, the prelude's first, and the names that it gives to
/// functions and types.
pub fn known_of(alloc: Global, items: &[Item], decls: DeclList) -> Result<Known, AllocError>
    ensures { IfOk result (λ k. k ≡ known_of items.now decls) }
{
    let methods = methods_of(alloc, items)?;
    let types = types_of(alloc, items)?;
    let functions = with_names(prelude_functions(alloc)?, methods.as_slice())?;
    Ok(Known {
        decls: KnownDecls::of(alloc, decls)?,
        functions,
        methods,
        types,
    })
}
