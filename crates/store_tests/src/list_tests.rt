//! The lists and the node of jl_model, each on its happy path, and a list that threads share.

use crate::holds;
use crate::making::push;
use jl_model::rows::{Rest, Row, Stack};
use jl_model::shared::{SharedList, SharedNode};
use jl_model::ty::Ty;
use std::alloc::{AllocError, Global};
use std::thread::{self, Threads};

/// Puts four numbers into a row, and takes the last one out again.
fn fill(row: &mut Row<u8>) -> Result<bool, AllocError> {
    let was_empty = row.is_empty();
    row.append(&[1u8, 2, 3])?;
    row.push(4)?;
    let has_four = row.len() == 4;
    row.truncate(3);
    Ok(was_empty && has_four)
}

/// Whether a row is this list in the end.
fn becomes(alloc: Global, row: Row<u8>, due: &[u8]) -> Result<bool, AllocError> {
    let list = row.into_shared(alloc)?;
    Ok(list.as_slice() == due)
}

fn row_is_right(alloc: Global) -> Result<bool, AllocError> {
    let mut row = Row::new(alloc);
    let filled = fill(&mut row)?;
    let listed = becomes(alloc, row, &[1u8, 2, 3])?;
    Ok(filled && listed)
}

#[test]
fn a_row_hands_out_what_was_put_in(rt: HostRuntime) {
    assert!(rt; holds(row_is_right(rt.alloc())));
}

/// Whether a copy of a node of a list has the same list.
fn node_is_copied(
    alloc: Global,
    list: SharedList<u8>,
    due: &SharedList<u8>,
) -> Result<bool, AllocError> {
    let node = SharedNode::new(alloc, list)?;
    let copy = node.copy()?;
    Ok(copy.get() == due)
}

/// Whether a copy of a list is equal to it, and so is one in a node.
fn list_is_copied(alloc: Global, list: &SharedList<u8>) -> Result<bool, AllocError> {
    let copy = list.copy()?;
    let is_equal = copy == *list && copy.len() == 3;
    let is_held = node_is_copied(alloc, copy, list)?;
    Ok(is_equal && is_held)
}

fn copies_are_equal(alloc: Global) -> Result<bool, AllocError> {
    let items = Vec::from_slice(alloc, &[1u8, 2, 3])?;
    let list = SharedList::from_vec(alloc, items)?;
    list_is_copied(alloc, &list)
}

#[test]
fn copies_of_a_list_and_a_node_are_equal(rt: HostRuntime) {
    assert!(rt; holds(copies_are_equal(rt.alloc())));
}

fn stack_is_right(alloc: Global) -> Result<bool, AllocError> {
    let mut stack = Stack::new(alloc);
    stack.push(7u8)?;
    stack.push(8)?;
    Ok(stack.pop() == Some(8) && stack.pop() == Some(7) && stack.pop() == None)
}

#[test]
fn a_stack_hands_out_the_last_first(rt: HostRuntime) {
    assert!(rt; holds(stack_is_right(rt.alloc())));
}

/// Three variables.
fn three(alloc: Global) -> Result<Rest<Ty>, AllocError> {
    let mut variables = Vec::new(alloc);
    for variable in 0..3u32 {
        variables = push(variables, Ty::Var(variable))?;
    }
    let variables = SharedList::from_vec(alloc, variables)?;
    Ok(Rest::all(variables))
}

/// The number of a variable.
fn variable(ty: &Ty) -> Option<u32> {
    match ty {
        Ty::Var(variable) => Some(*variable),
        _ => None,
    }
}

/// Whether the next of the rest is this variable, or none.
fn is_next(rest: &mut Rest<Ty>, due: Option<u32>) -> Result<bool, AllocError> {
    match rest.next()? {
        Some(ty) => {
            let next = variable(&ty);
            drop(ty);
            Ok(next.is_some() && next == due)
        }
        None => Ok(due.is_none()),
    }
}

/// Whether the first of the rest is this variable.
fn is_first(rest: &Rest<Ty>, due: u32) -> bool {
    match rest.first() {
        Some(ty) => variable(ty) == Some(due),
        None => false,
    }
}

fn rest_is_right(alloc: Global) -> Result<bool, AllocError> {
    let mut rest = three(alloc)?;
    let begins = is_first(&rest, 0) && is_next(&mut rest, Some(0))?;
    rest.pass();
    Ok(begins && is_next(&mut rest, Some(2))? && is_next(&mut rest, None)?)
}

#[test]
fn the_rest_of_a_list_goes_on_item_by_item(rt: HostRuntime) {
    assert!(rt; holds(rest_is_right(rt.alloc())));
}

/// Whether a list has this number at its own place.
fn has_its_place(list: &SharedList<u8>, place: usize) -> bool {
    match list.as_slice().get(place) {
        Some(item) => *item as usize == place,
        None => false,
    }
}

/// Whether four threads find the four numbers of a list.
fn all_find<R: Threads + Sync>(rt: &R, alloc: Global) -> Result<bool, AllocError> {
    let items = Vec::from_slice(alloc, &[0u8, 1, 2, 3])?;
    let list = SharedList::from_vec(alloc, items)?;
    let answers = thread::map_indices(rt, alloc, 4, &|place| has_its_place(&list, place))?;
    Ok(answers.len() == 4 && !answers.as_slice().contains(&false))
}

#[test]
fn threads_share_a_list(rt: HostRuntime) {
    assert!(rt; holds(all_find(&rt, rt.alloc())));
}
