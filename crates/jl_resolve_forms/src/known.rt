//! What is known of a script before its statements are read.

use crate::known_decls::KnownDecls;
use jl_model::shared::SharedNode;
use jl_names::list::NameList;
use jl_names::marked::MarkedNames;
use jl_program::tree::Expr;

/// The declarations, the built-in ones first; the functions, the prelude's first; and the names that the script gives to
/// functions and to types, where they stand, in text order.
#[derive(Drop)]
pub struct Known {
    pub decls: KnownDecls,
    pub functions: NameList,
    pub methods: MarkedNames,
    pub types: MarkedNames,
}

/// What a called name is.
#[derive(Clone, Copy, PartialEq, Eq, Debug)]
pub enum Called {
    /// A function by its number.
    Function(u32),
    /// A struct without parameters.
    Bare(u32),
    /// A struct whose type arguments are inferred.
    Inferred(u32),
    Unknown,
}

/// A test of an `if` with its block.
#[derive(Drop)]
pub struct Arm {
    pub test: SharedNode<Expr>,
    pub then: SharedNode<Expr>,
}
