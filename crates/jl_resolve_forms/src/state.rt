//! What is visible at a place, and what the text so far has given.
//!
//! They are apart because a block gives back what is visible when it ends, and keeps its sites, spawn places and
//! faults.

use crate::cells::Cells;
use jl_model::ty::{Tys, Written};
use jl_names::slots::Slots;
use jl_program::tree::{Delete, Expr, Site};
use jl_written::fault::{Fault, StaticKind};
use jl_written::reading::Reading;
use jl_written::vars::TypeVars;

/// What is visible at a place: the slots, each with its name, where it has one; the static parameters of the method; and
/// how many types are declared before, the built-in ones among them.
#[derive(Drop)]
pub struct Scope {
    pub slots: Slots,
    pub statics: TypeVars,
    pub types: u32,
}

/// The sites, the expressions of the spawn places and the deletion places so far, by their numbers, and the first fault.
#[derive(Drop)]
pub struct State {
    pub sites: Cells<Site>,
    pub spawns: Cells<Expr>,
    pub deletes: Cells<Delete>,
    pub fault: Option<Fault>,
}

/// A method up to its body: its function, its signature, and what its body sees.
#[derive(Drop)]
pub struct Opening {
    pub function: u32,
    pub sig: Written,
    pub scope: Scope,
}

/// The signature of a method: the variables of its `where`, the signature, its first fault, and what refuses it.
#[derive(Drop)]
pub struct Signed {
    pub vars: TypeVars,
    pub sig: Written,
    pub fault: Option<Fault>,
    pub refusal: Option<StaticKind>,
}

/// The types of a method's parameters: the variables of its `where`, the types, and what is known behind them.
#[derive(Drop)]
pub struct SignatureRead {
    pub vars: TypeVars,
    pub types: Tys,
    pub reading: Reading,
}
