//! A program is kept with its table and its signatures.

use crate::holds;
use crate::programs::ready_of;
use jl_sig::Ready;
use std::alloc::{AllocError, Global};

/// How many parameters a site has, none where there is no such site.
fn parameters(ready: &Ready, site: u32) -> Option<usize> {
    if ready.program().sites.len() <= site as usize {
        return None;
    }
    Some(ready.sig(site).written().parts.len())
}

/// Whether a type has a signature of its fields.
fn has_fields(ready: &Ready, number: u32) -> bool {
    number < ready.table().count() && ready.fields(number).is_some()
}

fn prelude_is_kept(ready: &Ready) -> bool {
    ready.table().count() == 8
        && ready.program().top.as_slice().is_empty()
        && parameters(ready, 12) == Some(1)
        && !has_fields(ready, 4)
}

/// Whether the prelude alone is kept, which is the program of an empty script.
fn empty_script_is_kept(alloc: Global) -> Result<bool, AllocError> {
    let ready = ready_of(alloc, "")?;
    let answer = prelude_is_kept(&ready);
    drop(ready);
    Ok(answer)
}

#[test]
fn the_prelude_is_kept_with_its_table_and_its_signatures(rt: HostRuntime) {
    assert!(rt; holds(empty_script_is_kept(rt.alloc())));
}
