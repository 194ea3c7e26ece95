//! All operations of the prelude.

ghost use Rattle.std.specs.Prelude.{◌≡◌, ◌<◌, map};
ghost use Rattle.jl_program.specs.declared.prelude.TheConstants.{PRELUDE_SITES};
ghost use Rattle.jl_program.specs.Prelude.{prelude_numbers};
ghost use Rattle.jl_calculus.specs.Host.{host_meaning};
ghost use Rattle.jl_host.specs.Replies.{IsShown, outcome_of};

use crate::op::HostOp;
use crate::reply::OpReply;

/// The operations of the prelude, in the order of their codes.
#[derive(Drop)]
pub struct HostOps {
    list: Vec<HostOp>,
    ghost whole: { map (λ op. op.code) list.items ≡ prelude_numbers },
}

impl HostOps {
    /// Keeps an operation for each code.
    pub fn new(list: Vec<HostOp>) -> HostOps
        requires { map (λ op. op.code) list.items ≡ prelude_numbers }
    {
        HostOps { list }
    }

    /// What the operation of a code answers for a pair of numbers that it can be shown.
    pub fn call(&self, code: u8, a: i64, b: i64) -> OpReply
        requires code { code < PRELUDE_SITES }
        requires shown { IsShown code a b }
        ensures { outcome_of result ≡ host_meaning code a b }
    {
        self.list[code as usize].call(a, b)
    }
}
