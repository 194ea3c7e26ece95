//! The members of a union without those that are below others.

ghost use Rattle.std.specs.Prelude.{◌≡◌, ◌≤◌, IsTrue, ◌↔◌, false, [], IfOk};
ghost use Rattle.jl_model.specs.Ancestors.{table_of};
ghost use Rattle.jl_model.specs.Counts.{nodes};
ghost use Rattle.jl_model.specs.Members.{BelowSome};
ghost use Rattle.jl_types.specs.Reduce.{Candidate, Candidates, BelowNoSmall, Thinned, Inserted, Reduces};

use crate::count::nodes_within;
use crate::ground::is_above;
use crate::table::Table;
use jl_model::limits::MOST_TYPE_NODES;
use jl_model::ty::Ty;
use std::alloc::{AllocError, Global};

/// Whether a type has at most 1,024 nodes.
pub fn is_small(ty: &Ty) -> bool
    ensures { IsTrue result ↔ (nodes ty.now ≤ MOST_TYPE_NODES) }
{
    nodes_within(ty, MOST_TYPE_NODES) <= MOST_TYPE_NODES
}

/// Whether a candidate is below a small one of these.
fn is_covered(table: &Table, members: &[Ty], candidate: &Ty) -> bool
    requires members_candidates { Candidates table.now members.now }
    requires candidate { Candidate table.now candidate.now }
    ensures covered { IsTrue result → BelowSome (table_of table.now) candidate.now members.now }
    ensures uncovered { result ≡ false → BelowNoSmall (table_of table.now) candidate.now members.now }
{
    for member in members {
        if is_small(member) && is_above(table, member, candidate) {
            return true;
        }
    }
    false
}

/// Those that are not below a small candidate.
fn thinned(
    alloc: Global,
    table: &Table,
    members: &[Ty],
    candidate: &Ty,
) -> Result<Vec<Ty>, AllocError>
    requires members_candidates { Candidates table.now members.now }
    requires candidate { Candidate table.now candidate.now }
    requires small { nodes candidate.now ≤ MOST_TYPE_NODES }
    ensures { IfOk result (λ left. Thinned (table_of table.now) candidate.now members.now left.items) }
{
    let mut left = Vec::new(alloc);
    for member in members {
        if !is_above(table, candidate, member) {
            left.push(member.copy()?)?;
        }
    }
    Ok(left)
}

/// The members with one more candidate, if it is below none of them, and without those below it.
fn inserted(
    alloc: Global,
    table: &Table,
    members: Vec<Ty>,
    candidate: &Ty,
) -> Result<Vec<Ty>, AllocError>
    requires members_candidates { Candidates table.now members.items }
    requires candidate { Candidate table.now candidate.now }
    ensures { IfOk result (λ more. Inserted (table_of table.now) members.items candidate.now more.items) }
{
    if is_covered(table, members.as_slice(), candidate) {
        return Ok(members);
    }
    if !is_small(candidate) {
        let mut more = members;
        more.push(candidate.copy()?)?;
        return Ok(more);
    }
    let mut more = thinned(alloc, table, members.as_slice(), candidate)?;
    more.push(candidate.copy()?)?;
    Ok(more)
}

/// The members that are left of these candidates, one after another.
pub fn reduced(alloc: Global, table: &Table, candidates: &[Ty]) -> Result<Vec<Ty>, AllocError>
    requires { Candidates table.now candidates.now }
    ensures { IfOk result (λ members. Reduces (table_of table.now) candidates.now [] members.items) }
{
    let mut members = Vec::new(alloc);
    for candidate in candidates {
        members = inserted(alloc, table, members, candidate)?;
    }
    Ok(members)
}
