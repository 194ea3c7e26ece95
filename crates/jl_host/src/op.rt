//! One operation of the prelude.

ghost use Rattle.std.specs.Prelude.{◌≡◌, ℤ};
ghost use Rattle.jl_host.specs.declared.reply.OpReply.{OpReply};
ghost use Rattle.jl_host.specs.Replies.{IsShown, Means};

use crate::reply::OpReply;

/// A function that answers what an operation of the prelude means, for each pair of numbers that the operation can be shown.
#[derive(Drop)]
pub struct HostOp {
    pub code: u8,
    run: fn(i64, i64) -> OpReply,
    ghost callable: { (a b : ℤ) → IsShown code a b → pre run a b },
    ghost means: { (a b : ℤ) (reply : OpReply) → IsShown code a b → post run a b reply → Means code a b reply },
}

impl HostOp {
    /// Keeps a function beside what it answers.
    pub fn new(code: u8, run: fn(i64, i64) -> OpReply) -> HostOp
        requires callable { (a b : ℤ) → IsShown code a b → pre run a b }
        requires means { (a b : ℤ) (reply : OpReply) → IsShown code a b → post run a b reply → Means code a b reply }
        ensures { result.code ≡ code }
    {
        HostOp { code, run }
    }

    /// The answer for a pair of numbers.
    pub fn call(&self, a: i64, b: i64) -> OpReply
        requires { IsShown self.now.code a b }
        ensures { Means self.now.code a b result }
    {
        (self.run)(a, b)
    }
}
