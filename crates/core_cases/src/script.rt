//! Scripts, as programs.

ghost use Rattle.std.specs.Prelude.{IfOk};
ghost use Rattle.jl_formed.specs.Formed.{FormedScript};
ghost use Rattle.jl_program.specs.Valid.{IsValid};

use jl_grammar::tree::Script;
use jl_program::tree::Program;
use jl_reader::read;
use jl_resolve::check_script;
use jl_sig::Ready;
use jl_token::tokens;
use std::alloc::{AllocError, Global};

/// The script of a text. A text that has none is answered as out of memory.
fn script_of(alloc: Global, text: &[u8]) -> Result<Script, AllocError>
    ensures { IfOk result FormedScript }
{
    let tokens = match tokens(alloc, text) {
        Ok(tokens) => tokens,
        Err(_) => return Err(AllocError),
    };
    match read(alloc, tokens.as_slice()) {
        Ok(script) => Ok(script),
        Err(_) => Err(AllocError),
    }
}

/// The program that a text means. A text that means none is answered as out of memory.
fn plain_program(alloc: Global, text: &[u8]) -> Result<Program, AllocError>
    ensures { IfOk result IsValid }
{
    let script = script_of(alloc, text)?;
    let made = check_script(alloc, &script);
    drop(script);
    match made {
        Ok(program) => Ok(program),
        Err(_) => Err(AllocError),
    }
}

/// The program that a text means, ready to be run.
pub fn program_of(alloc: Global, text: &[u8]) -> Result<Ready, AllocError> {
    let program = plain_program(alloc, text)?;
    Ready::make(alloc, program)
}
