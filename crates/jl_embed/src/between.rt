//! A method that any host may have, and which answers it may give.

ghost use Rattle.std.specs.Prelude.{IsTrue};
ghost use Rattle.jl_embed.specs.Between.{between};

use jl_host::Relation;

/// Method 0 answers a number from the lesser to the greater of two. There is no other method.
pub struct Between;

impl Relation for Between {
    ghost allows = { between };
}

/// The lesser of two numbers.
pub fn lesser(a: i64, b: i64) -> i64
    ensures { IsTrue (between 0 a b result) }
{
    if a < b { a } else { b }
}
