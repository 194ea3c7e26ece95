//! Scripts, what is known of them, and the programs that they mean.

ghost use Rattle.std.specs.Prelude.{IfOk};
ghost use Rattle.jl_work.specs.Owed.{AreScript};

use jl_declare::declarations::declarations;
use jl_declare::known::known_of;
use jl_declare::state::Declarations;
use jl_grammar::tree::{Item, Script};
use jl_reader::read;
use jl_resolve::program;
use jl_resolve_forms::known::Known;
use jl_sig::Ready;
use jl_token::tokens;
use std::alloc::{AllocError, Global};

/// The script that a text is. A text that is none is answered as out of memory.
#[tactic(auto, using(jl_typeread::proofs::Ends::ends_alone))]
pub(crate) fn script_of(alloc: Global, source: &str) -> Result<Script, AllocError>
    ensures { IfOk result (λ script. AreScript source.now script) }
{
    let Ok(tokens) = tokens(alloc, source.as_bytes()) else {
        return Err(AllocError);
    };
    match read(alloc, tokens.as_slice()) {
        Ok(script) => Ok(script),
        Err(_) => Err(AllocError),
    }
}

/// The program that a script means. A script that is no program is answered as out of memory.
fn meaning(alloc: Global, source: &str, script: &Script) -> Result<Ready, AllocError>
    requires { AreScript source.now script.now }
{
    match program(alloc, script) {
        Ok(ready) => Ok(ready),
        Err(_) => Err(AllocError),
    }
}

/// The program that a text means.
pub(crate) fn ready_of(alloc: Global, source: &str) -> Result<Ready, AllocError> {
    let script = script_of(alloc, source)?;
    let ready = meaning(alloc, source, &script);
    drop(script);
    ready
}

fn known_of_items(alloc: Global, items: &[Item]) -> Result<Known, AllocError> {
    let Declarations { table, decls, .. } = declarations(alloc, items)?;
    drop(table);
    known_of(alloc, items, decls)
}

/// What is known of the types and functions of a text. Whoever has it lets it go by a call: a drop that is left to the compiler is
/// unrolled into the proof.
pub(crate) fn known_of_text(alloc: Global, source: &str) -> Result<Known, AllocError> {
    let script = script_of(alloc, source)?;
    let known = known_of_items(alloc, script.items.as_slice());
    drop(script);
    known
}
