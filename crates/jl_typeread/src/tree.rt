//! Written types: a tree with one type for each rule of the grammar. Each node keeps the offset in bytes of its first
//! token.

use jl_model::shared::{SharedList, SharedNode};
use jl_model::ty::Bytes;

/// The arguments in a type's braces.
pub type ArgTexts = SharedList<ArgText>;
/// The variables of a `where` or of a declaration.
pub type VarTexts = SharedList<VarText>;

/// A written type (Julia manual, Types).
#[derive(Drop, PartialEq, Eq)]
#[cycle(tree)]
pub enum TypeText {
    /// A name without braces.
    Name(u32, Bytes),
    /// A name with braces, and the arguments in them.
    Applied(u32, Bytes, ArgTexts),
    /// A type in parentheses, and the variables of the `where` behind it: none where it has no `where`.
    Paren(u32, SharedNode<TypeText>, VarTexts),
}

/// An argument in braces.
#[derive(Drop, PartialEq, Eq)]
#[cycle(tree)]
pub enum ArgText {
    /// A type.
    Exact(TypeText),
    /// `<:` and a type.
    Below(u32, TypeText),
    /// `>:` and a type.
    Above(u32, TypeText),
}

/// A variable with its bounds, which are nodes of their own, since most variables have none.
#[derive(Drop, PartialEq, Eq)]
#[cycle(tree)]
pub enum VarText {
    /// A name.
    Free(u32, Bytes),
    /// A name, `<:` and a type.
    Below(u32, Bytes, SharedNode<TypeText>),
    /// A name, `>:` and a type.
    Above(u32, Bytes, SharedNode<TypeText>),
    /// A type, `<:`, the place of the name and the name, `<:` and a type.
    Between(SharedNode<TypeText>, u32, Bytes, SharedNode<TypeText>),
}
