//! Values as contracts see them.

use jl_model::shared::SharedList;
use jl_model::ty::Ty;

/// A value as contracts see it, without the counts that code keeps. No code makes one.
#[derive(Drop)]
pub enum Datum {
    Int(i64),
    Bool(bool),
    Nothing,
    Task(u32),
    Tuple(Ty, SharedList<Datum>),
    Struct(Ty, SharedList<Datum>),
}
