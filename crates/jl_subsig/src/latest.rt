//! The latest definition of each site, and whether signatures are written alike.

ghost use Rattle.std.specs.Prelude.{◌≡◌, IsTrue, IfOk};
ghost use Rattle.std.specs.List.{Contains};
ghost use Rattle.jl_program.specs.declared.tree.Program.{Program};
ghost use Rattle.jl_calculus.specs.declared.history.Def.{Def as D};
ghost use Rattle.jl_calculus.specs.Definitions.{HasSite};
ghost use Rattle.jl_subsig.specs.Latest.{AreLatest, AreNone};
ghost use Rattle.jl_subsig.specs.Side.{Every};

use jl_calculus::history::Def;
use jl_model::ty::{Bound, Written};
use jl_sig::Ready;
use jl_types::same::{same, same_all};
use std::alloc::{AllocError, Global};

/// Whether two lists have the same bounds.
fn are_same_bounds(xs: &[Bound], ys: &[Bound]) -> bool
    ensures { IsTrue result → xs.now ≡ ys.now }
{
    if xs.len() != ys.len() {
        return false;
    }
    for (i, x) in xs.iter().enumerate() {
        if !same(&x.low, &ys[i].low) || !same(&x.high, &ys[i].high) {
            return false;
        }
    }
    true
}

/// Whether two signatures are written alike.
pub fn is_same_sig(a: &Written, b: &Written) -> bool
    ensures { IsTrue result → a.now ≡ b.now }
{
    same_all(a.parts.as_slice(), b.parts.as_slice())
        && are_same_bounds(a.vars.as_slice(), b.vars.as_slice())
}

/// A flag for each of so many sites, none of which is set.
fn no_flags(alloc: Global, count: usize) -> Result<Vec<bool>, AllocError>
    ensures { IfOk result (λ flags. AreNone count flags.items) }
{
    let mut flags = Vec::new(alloc);
    flags.resize(count, false)?;
    Ok(flags)
}

/// The definitions without those whose site is defined again later, in their order. The walk begins at the last one, and a flag for each
/// site tells whether it was met, so each definition costs the same, however many there are.
pub(crate) fn latest(alloc: Global, ready: &Ready, defs: &[Def]) -> Result<Vec<Def>, AllocError>
    requires sites { Every (HasSite ready.now) defs.now }
    ensures { IfOk result (λ those. AreLatest ready.now defs.now those.items) }
{
    let mut met = no_flags(alloc, ready.program().sites.len())?;
    let mut those = Vec::new(alloc);
    let mut left = defs.len();
    while left > 0 {
        left -= 1;
        let def = defs[left];
        let site = def.site as usize;
        if met[site] {
            continue;
        }
        met[site] = true;
        those.push(def)?;
    }
    those.reverse();
    Ok(those)
}
