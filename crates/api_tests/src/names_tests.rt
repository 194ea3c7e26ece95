//! The tables of names, each on its happy path.

use crate::holds;
use crate::making::{name, plain, text};
use jl_model::ty::{Bounds, Bytes};
use jl_names::decls::DeclList;
use jl_names::list::NameList;
use jl_names::marked::MarkedNames;
use jl_names::slots::Slots;
use jl_names::stack::NameStack;
use std::alloc::{AllocError, Global};

fn push_names(alloc: Global, names: &mut NameList, texts: &[&str]) -> Result<(), AllocError> {
    for name in texts {
        names.push(text(alloc, name)?)?;
    }
    Ok(())
}

/// Whether `f` and `g` are where they were first pushed. The tables are let go by their owners alone, by a call: a drop that is left to
/// the compiler is unrolled into the proof at each way out.
fn first_is_found(alloc: Global, names: &mut NameList) -> Result<bool, AllocError> {
    push_names(alloc, names, &["f", "g", "f"])?;
    let shared = names.to_shared(alloc)?;
    Ok(
        names.find(b"f") == Some(0)
            && names.find(b"g") == Some(1)
            && names.find(b"h") == None
            && names.len() == 3
            && shared.as_slice() == names.as_slice(),
    )
}

fn the_list_finds_the_first(alloc: Global) -> Result<bool, AllocError> {
    let mut names = NameList::new(alloc);
    let answer = first_is_found(alloc, &mut names);
    drop(names);
    answer
}

#[test]
fn the_first_of_several_is_found(rt: HostRuntime) {
    assert!(rt; holds(the_list_finds_the_first(rt.alloc())));
}

fn place_is_found(alloc: Global, names: &mut MarkedNames) -> Result<bool, AllocError> {
    names.push(name(alloc, 7, "f")?)?;
    names.push(name(alloc, 9, "f")?)?;
    Ok(names.find(b"f") == Some(7) && names.find(b"g") == None && names.as_slice().len() == 2)
}

fn the_marked_list_finds_the_place(alloc: Global) -> Result<bool, AllocError> {
    let mut names = MarkedNames::new(alloc);
    let answer = place_is_found(alloc, &mut names);
    drop(names);
    answer
}

#[test]
fn a_marked_name_is_found_where_it_stands_first(rt: HostRuntime) {
    assert!(rt; holds(the_marked_list_finds_the_place(rt.alloc())));
}

fn stack_names(alloc: Global, names: &mut NameStack, texts: &[&str]) -> Result<(), AllocError> {
    for name in texts {
        names.push(text(alloc, name)?)?;
    }
    Ok(())
}

fn last_hides(names: &NameStack) -> bool {
    names.find(b"T") == Some(2) && names.find(b"S") == Some(1) && names.find(b"U") == None
}

fn hidden_is_back(names: &mut NameStack) -> bool {
    names.truncate(2);
    names.find(b"T") == Some(0) && names.find(b"S") == Some(1) && names.len() == 2
}

fn another_takes_its_place(alloc: Global, names: &mut NameStack) -> Result<bool, AllocError> {
    names.truncate(1);
    let is_gone = names.find(b"S") == None;
    let hidden = names.push(text(alloc, "U")?)?;
    Ok(is_gone && hidden == None && names.find(b"S") == None && names.find(b"U") == Some(1))
}

fn hidden_place_is_the_answer(alloc: Global, names: &mut NameStack) -> Result<bool, AllocError> {
    let hidden = names.push(text(alloc, "T")?)?;
    Ok(hidden == Some(0))
}

fn stack_is_right(alloc: Global, names: &mut NameStack) -> Result<bool, AllocError> {
    stack_names(alloc, names, &["T", "S", "T"])?;
    Ok(
        last_hides(names)
            && hidden_is_back(names)
            && another_takes_its_place(alloc, names)?
            && hidden_place_is_the_answer(alloc, names)?,
    )
}

fn the_stack_finds_the_last(alloc: Global) -> Result<bool, AllocError> {
    let mut names = NameStack::new(alloc);
    let answer = stack_is_right(alloc, &mut names);
    drop(names);
    answer
}

#[test]
fn the_last_of_several_hides_the_others(rt: HostRuntime) {
    assert!(rt; holds(the_stack_finds_the_last(rt.alloc())));
}

/// The name's variable gets a slot, where it has none.
fn visible(slots: &mut Slots, name: Bytes) -> Result<(), AllocError> {
    match slots.find(name.as_slice()) {
        Some(_) => Ok(()),
        None => slots.push(name),
    }
}

/// The variable `b` has slot 2, also where it comes once more behind the block in which it was.
fn slots_are_right(alloc: Global, slots: &mut Slots) -> Result<bool, AllocError> {
    visible(slots, text(alloc, "a")?)?;
    slots.push_unnamed()?;
    visible(slots, text(alloc, "b")?)?;
    let are_first = slots.find(b"a") == Some(0) && slots.find(b"b") == Some(2);
    slots.truncate(2);
    let is_gone = slots.find(b"a") == Some(0) && slots.find(b"b") == None && slots.len() == 2;
    visible(slots, text(alloc, "b")?)?;
    Ok(are_first && is_gone && slots.find(b"b") == Some(2))
}

fn the_slots_end_with_their_block(alloc: Global) -> Result<bool, AllocError> {
    let mut slots = Slots::new(alloc);
    let answer = slots_are_right(alloc, &mut slots);
    drop(slots);
    answer
}

#[test]
fn slots_end_with_their_block(rt: HostRuntime) {
    assert!(rt; holds(the_slots_end_with_their_block(rt.alloc())));
}

/// Declares `A`, `B` and `A`.
fn push_decls(alloc: Global, decls: &mut DeclList) -> Result<(), AllocError> {
    decls.push(plain(alloc, "A", Bounds::empty())?)?;
    decls.push(plain(alloc, "B", Bounds::empty())?)?;
    decls.push(plain(alloc, "A", Bounds::empty())?)?;
    Ok(())
}

/// Whether the list finds the first of a name, and so do the lists of its first one and of all.
fn first_declaration_is_found(decls: &DeclList) -> bool {
    decls.find(b"A") == Some(0)
        && decls.find(b"B") == Some(1)
        && decls.first(9).find(b"B") == Some(1)
        && decls.all().find(b"C") == None
}

/// Whether the list of the first declaration has that one alone.
fn first_is_alone(decls: &DeclList) -> bool {
    decls.first(1).find(b"A") == Some(0)
        && decls.first(1).find(b"B") == None
        && decls.first(1).get(0).is_some()
        && decls.first(1).get(1).is_none()
}

fn the_declarations_are_found(alloc: Global) -> Result<bool, AllocError> {
    let mut decls = DeclList::new(alloc);
    let pushed = push_decls(alloc, &mut decls);
    let answer = first_declaration_is_found(&decls) && first_is_alone(&decls);
    drop(decls);
    pushed?;
    Ok(answer)
}

#[test]
fn the_first_declaration_of_a_name_is_found(rt: HostRuntime) {
    assert!(rt; holds(the_declarations_are_found(rt.alloc())));
}

/// Whether each name goes with its last declaration. The last `pop` finds an empty list.
fn names_go(decls: &mut DeclList) -> bool {
    decls.pop();
    let has_first = decls.find(b"A") == Some(0) && decls.len() == 2;
    decls.pop();
    let has_one = decls.find(b"B") == None && decls.as_slice().len() == 1;
    decls.pop();
    decls.pop();
    has_first && has_one && decls.find(b"A") == None && decls.len() == 0
}

fn the_names_go_with_their_declarations(alloc: Global) -> Result<bool, AllocError> {
    let mut decls = DeclList::new(alloc);
    let pushed = push_decls(alloc, &mut decls);
    let answer = names_go(&mut decls);
    drop(decls);
    pushed?;
    Ok(answer)
}

#[test]
fn the_last_declaration_goes_with_its_name(rt: HostRuntime) {
    assert!(rt; holds(the_names_go_with_their_declarations(rt.alloc())));
}
