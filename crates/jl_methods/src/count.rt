//! Worlds in order, and how many of them are up to another.

ghost use Rattle.std.specs.Prelude.{◌≤◌, length};
ghost use Rattle.std.specs.List.Sorted.{IsStrictlyIncreasing};
ghost use Rattle.jl_methods.specs.Counted.{IsCountUpTo};

/// How many of these worlds, which are in order, are at most another. The search halves the worlds again and again.
pub fn count_up_to(worlds: &[u32], world: u32) -> usize
    ensures count { IsStrictlyIncreasing worlds.now → IsCountUpTo worlds.now world result }
    ensures within { result ≤ length worlds.now }
{
    worlds.partition_point(|made| *made <= world)
}
