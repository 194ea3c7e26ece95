//! From the bytes of a text to a script, and from that to a program.

ghost use Rattle.std.specs.Prelude.{IfOk, MatchResult};
ghost use Rattle.jl_work.specs.Owed.{AreScript, AreProgram, IsFaultLine};

use crate::faults::{static_line, syntax_line, token_line};
use jl_grammar::tree::Script;
use jl_model::ty::Bytes;
use jl_program::tree::Program;
use jl_reader::read;
use jl_resolve::{check_script, program};
use jl_sig::Ready;
use jl_token::tokens;
use std::alloc::{AllocError, Global};

/// The script that a text is, or the line of its first fault: one of its tokens, or the first token that no script has there.
pub fn script(alloc: Global, bytes: &[u8]) -> Result<Result<Script, Bytes>, AllocError>
    ensures { IfOk result (λ r. MatchResult r (AreScript bytes.now) (IsFaultLine bytes.now)) }
{
    let tokens = match tokens(alloc, bytes) {
        Ok(tokens) => tokens,
        Err(fault) => return Ok(Err(token_line(alloc, bytes, fault)?)),
    };
    match read(alloc, tokens.as_slice()) {
        Ok(script) => Ok(Ok(script)),
        Err(fault) => Ok(Err(syntax_line(alloc, bytes, fault)?)),
    }
}

/// The program that the script of a text means, ready to be run, or the line of its first static fault.
pub fn resolve(
    alloc: Global,
    bytes: &[u8],
    script: &Script,
) -> Result<Result<Ready, Bytes>, AllocError>
    requires { AreScript bytes.now script.now }
    ensures { IfOk result (λ r. MatchResult r (AreProgram bytes.now) (IsFaultLine bytes.now)) }
{
    match program(alloc, script) {
        Ok(ready) => Ok(Ok(ready)),
        Err(fault) => Ok(Err(static_line(alloc, bytes, fault)?)),
    }
}

/// The program that the script of a text means, or the line of its first static fault. The program is not made ready to be run.
pub fn check(
    alloc: Global,
    bytes: &[u8],
    script: &Script,
) -> Result<Result<Program, Bytes>, AllocError>
    requires { AreScript bytes.now script.now }
    ensures { IfOk result (λ r. MatchResult r (AreProgram bytes.now) (IsFaultLine bytes.now)) }
{
    match check_script(alloc, script) {
        Ok(program) => Ok(Ok(program)),
        Err(fault) => Ok(Err(static_line(alloc, bytes, fault)?)),
    }
}
