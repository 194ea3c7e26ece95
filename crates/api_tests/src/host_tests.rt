//! Functions for all operations of the prelude, handed in and called.

use crate::calls::all_operations;
use crate::holds;
use jl_host::OpReply;
use std::alloc::{AllocError, Global};

fn each_means_its_operation(alloc: Global) -> Result<bool, AllocError> {
    let ops = all_operations(alloc)?;
    Ok(
        ops.call(0, i64::MAX, 1) == OpReply::Int(i64::MIN)
            && ops.call(1, 2, 5) == OpReply::Int(-3)
            && ops.call(2, -4, 6) == OpReply::Int(-24)
            && ops.call(3, -7, 2) == OpReply::Int(-3)
            && ops.call(3, 7, 0) == OpReply::DivideError
            && ops.call(4, -7, 2) == OpReply::Int(-1)
            && ops.call(5, i64::MIN, 0) == OpReply::Int(i64::MIN)
            && ops.call(6, 3, 3) == OpReply::Bool(true)
            && ops.call(7, 3, 3) == OpReply::Bool(false)
            && ops.call(8, 2, 3) == OpReply::Bool(true)
            && ops.call(9, 3, 3) == OpReply::Bool(true)
            && ops.call(10, 2, 3) == OpReply::Bool(false)
            && ops.call(11, 2, 3) == OpReply::Bool(false)
            && ops.call(12, 0, 0) == OpReply::Bool(true)
            && ops.call(13, 1, 0) == OpReply::Bool(false),
    )
}

#[test]
fn each_operation_that_is_handed_in_answers_its_meaning(rt: HostRuntime) {
    assert!(rt; holds(each_means_its_operation(rt.alloc())));
}
