use crate::asks::{ABSENT, FULL, make_start};
use crate::ends::both_end;
use crate::holds;
use crate::index::touching_both;
use crate::making::push;
use crate::programs::{F, FUEL};
use crate::runs::{tell_deleted, tell_late};
use crate::searches::NO_SITE;
use crate::steps::Step;
use jl_calculus::history::Event;
use jl_model::ty::{Key, Tys};
use std::alloc::{AllocError, Global};

/// The definitions of the script; a row for the world of its task and one for the world after it; and the first definition once more,
/// which ends the row that has no end.
static LATE_STEPS: [Step; 17] = [
    Step::Define(14, 15),
    Step::Define(15, 16),
    Step::Define(16, 17),
    Step::Name(0),
    Step::Resolve(16, 15, 0),
    Step::Find(14, NO_SITE),
    Step::Find(15, 14),
    Step::Find(16, 14),
    Step::Find(17, NO_SITE),
    Step::Resolve(17, 17, 1),
    Step::Find(17, 16),
    Step::Define(14, 18),
    Step::Find(16, 14),
    Step::Find(17, 16),
    Step::Find(18, NO_SITE),
    Step::Spawn(1),
    Step::Running(1),
];

/// The most keys and the most rows.
static MOST_STEPS: [Step; 6] = [
    Step::Name(0),
    Step::Keys(8_192),
    Step::NoPlace,
    Step::Rows(16_384),
    Step::Define(14, 16_399),
    Step::Resolve(16_399, 16_399, FULL),
];

/// One key and one row; the most worlds and the most tasks.
static FEW_STEPS: [Step; 10] = [
    Step::Define(14, 15),
    Step::Name(0),
    Step::NoPlace,
    Step::Resolve(15, 15, 0),
    Step::Define(14, 16),
    Step::Resolve(16, 16, FULL),
    Step::Worlds(16),
    Step::Define(14, FULL),
    Step::Tasks(1),
    Step::Spawn(FULL),
];

/// The definitions of the script, a row for world 17 that has no end, and a deletion, which ends it there. A second one finds nothing.
/// A definition at the same site as the first brings no earlier one back, and is deleted in its turn.
static DELETED_STEPS: [Step; 19] = [
    Step::Delete(0, ABSENT),
    Step::Define(14, 15),
    Step::Define(15, 16),
    Step::Define(16, 17),
    Step::Name(0),
    Step::Resolve(17, 17, 0),
    Step::Find(17, 16),
    Step::Delete(0, 18),
    Step::Find(17, 16),
    Step::Find(18, NO_SITE),
    Step::NoMethod(18),
    Step::Delete(0, ABSENT),
    Step::Define(14, 19),
    Step::Resolve(19, 19, 1),
    Step::Find(18, NO_SITE),
    Step::Delete(0, 20),
    Step::Find(19, 14),
    Step::NoMethod(20),
    Step::Delete(0, ABSENT),
];

/// With a single row, which a deletion ends; and the most worlds, at which nothing is said of the method.
static LAST_DELETED_STEPS: [Step; 9] = [
    Step::Define(14, 15),
    Step::Name(0),
    Step::Resolve(15, 15, 0),
    Step::Delete(0, 16),
    Step::NoMethod(16),
    Step::Find(15, 14),
    Step::Worlds(16),
    Step::Delete(0, FULL),
    Step::Define(14, FULL),
];

/// An event of a row.
fn fill(site: u32, first: u32) -> Event {
    Event::Fill {
        key: 0,
        site,
        first,
    }
}

/// An event of that run.
fn late_event(alloc: Global, place: u32) -> Event {
    match place {
        0 => Event::Begin(FUEL),
        1 => Event::Def { task: 0, site: 14 },
        2 => Event::Def { task: 0, site: 15 },
        3 => Event::Def { task: 0, site: 16 },
        4 => Event::Key(Key {
            function: F,
            types: Tys::empty(),
        }),
        5 => fill(14, 15),
        6 => fill(16, 17),
        7 => Event::Def { task: 0, site: 14 },
        _ => Event::Spawn {
            task: 0,
            child: 1,
            start: make_start(alloc),
        },
    }
}

/// Its nine events.
fn late_events(alloc: Global) -> Result<Vec<Event>, AllocError> {
    let mut events = Vec::new(alloc);
    for place in 0..9u32 {
        events = push(events, late_event(alloc, place))?;
    }
    Ok(events)
}

fn late_is_told(alloc: Global) -> Result<bool, AllocError> {
    let due = late_events(alloc)?;
    tell_late(alloc, 8_192, 16_384, &LATE_STEPS, due.as_slice())
}

/// Where one allocation is refused, a step is taken once more after all was found as before it; outside of the steps all is done anew.
fn late_is_due(alloc: Global) -> Result<bool, AllocError> {
    let told = late_is_told(alloc);
    if told.is_err() {
        return late_is_told(alloc);
    }
    told
}

#[test]
fn a_definition_ends_the_row_that_has_no_end(rt: HostRuntime) {
    assert!(rt; holds(late_is_due(rt.alloc())));
}

/// Whether the index says what is due. It is told whether a refusal changed it.
fn index_is_due(alloc: Global, differs: &mut bool) -> Result<bool, AllocError> {
    let told = touching_both(alloc, differs);
    if told.is_err() {
        return touching_both(alloc, differs);
    }
    told
}

#[test]
fn what_touches_a_key_grows_with_each_definition(rt: HostRuntime) {
    let mut differs = false;
    assert!(rt; holds(index_is_due(rt.alloc(), &mut differs)));
    assert!(rt; !differs);
}

fn limits_are_due(alloc: Global) -> Result<bool, AllocError> {
    let most = tell_late(alloc, 8_192, 16_384, &MOST_STEPS, &[])?;
    let few = tell_late(alloc, 1, 1, &FEW_STEPS, &[])?;
    Ok(most && few)
}

/// Each limit at its number and one below, and with places for one key and one row.
#[test]
fn each_limit_is_refused_at_its_number(rt: HostRuntime) {
    assert!(rt; holds(limits_are_due(rt.alloc())));
}

#[test]
fn a_task_ends_and_is_fetched(rt: HostRuntime) {
    assert!(rt; holds(both_end(rt.alloc())));
}

/// An event of the run that deletes.
fn deleted_event(alloc: Global, place: u32) -> Event {
    match place {
        0 => Event::Begin(FUEL),
        1 => Event::Def { task: 0, site: 14 },
        2 => Event::Def { task: 0, site: 15 },
        3 => Event::Def { task: 0, site: 16 },
        4 => Event::Key(Key {
            function: F,
            types: Tys::empty(),
        }),
        5 => fill(16, 17),
        6 => Event::Del { task: 0, place: 0 },
        7 => Event::Def { task: 0, site: 14 },
        8 => fill(14, 19),
        _ => Event::Del { task: 0, place: 0 },
    }
}

/// Its ten events.
fn deleted_events(alloc: Global) -> Result<Vec<Event>, AllocError> {
    let mut events = Vec::new(alloc);
    for place in 0..10u32 {
        events = push(events, deleted_event(alloc, place))?;
    }
    Ok(events)
}

fn deleted_is_told(alloc: Global) -> Result<bool, AllocError> {
    let due = deleted_events(alloc)?;
    tell_deleted(alloc, 8_192, 16_384, &DELETED_STEPS, due.as_slice())
}

fn deleted_is_due(alloc: Global) -> Result<bool, AllocError> {
    let told = deleted_is_told(alloc);
    if told.is_err() {
        return deleted_is_told(alloc);
    }
    told
}

/// A second deletion finds no method; a definition at the same site makes one anew, and none that was deleted comes back.
#[test]
fn a_deletion_ends_the_row_that_has_no_end(rt: HostRuntime) {
    assert!(rt; holds(deleted_is_due(rt.alloc())));
}

fn last_deletion_is_due(alloc: Global) -> Result<bool, AllocError> {
    tell_deleted(alloc, 1, 1, &LAST_DELETED_STEPS, &[])
}

#[test]
fn a_deletion_in_the_last_world_is_refused(rt: HostRuntime) {
    assert!(rt; holds(last_deletion_is_due(rt.alloc())));
}
