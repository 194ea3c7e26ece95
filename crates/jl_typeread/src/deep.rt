//! Trees beside their depth. A tree that is deeper than the limit is not built, so none is ever deep.

ghost use Rattle.std.specs.Prelude.{◌≡◌, ◌≤◌, IfOk, [], max};
ghost use Rattle.jl_typeread.specs.declared.deep.Deep.TheVariants as D;
ghost use Rattle.jl_typeread.specs.Depth.{plain_type, no_arguments, no_variables, argument, with_argument, with_variable, applied_type, paren, below_bound, above_bound, between_bound};

use crate::tree::{ArgText, ArgTexts, TypeText, VarText, VarTexts};
use jl_model::limits::MOST_TYPE_DEPTH;
use jl_model::rows::Row;
use jl_model::shared::SharedNode;
use jl_model::ty::Bytes;
use std::alloc::{AllocError, Global};

/// What was read, with its depth; or that it is deeper than the limit.
#[derive(Drop)]
pub enum Deep<T> {
    Built(T, u32),
    TooDeep,
}

/// A mark before an argument, and its place.
#[derive(Clone, Copy)]
pub enum Mark {
    /// No mark.
    Exact,
    /// `<:`
    Below(u32),
    /// `>:`
    Above(u32),
}

/// The type that is a name alone.
pub(crate) fn plain_type(at: u32, name: Bytes) -> Deep<TypeText>
    ensures { result ≡ plain_type at name }
{
    Deep::Built(TypeText::Name(at, name), 1)
}

/// No arguments.
pub(crate) fn no_arguments(alloc: Global) -> Deep<Row<ArgText>>
    ensures { result ≡ no_arguments }
{
    Deep::Built(Row::new(alloc), 0)
}

/// No variables.
pub(crate) fn no_variables(alloc: Global) -> Deep<Row<VarText>>
    ensures { result ≡ no_variables }
{
    Deep::Built(Row::new(alloc), 0)
}

/// An argument of this mark and this type.
fn argument(mark: Mark, ty: TypeText) -> ArgText
    ensures { result ≡ argument mark ty }
{
    match mark {
        Mark::Exact => ArgText::Exact(ty),
        Mark::Below(at) => ArgText::Below(at, ty),
        Mark::Above(at) => ArgText::Above(at, ty),
    }
}

/// The arguments and one more.
#[inline(always)]
pub(crate) fn with_argument(
    arguments: Deep<Row<ArgText>>,
    mark: Mark,
    ty: Deep<TypeText>,
) -> Result<Deep<Row<ArgText>>, AllocError>
    ensures { IfOk result (λ d. d ≡ with_argument arguments mark ty) }
{
    match arguments {
        Deep::Built(mut items, depth) => match ty {
            Deep::Built(ty, other) => {
                items.push(argument(mark, ty))?;
                Ok(Deep::Built(items, depth.max(other)))
            }
            Deep::TooDeep => Ok(Deep::TooDeep),
        },
        Deep::TooDeep => {
            drop(ty);
            Ok(Deep::TooDeep)
        }
    }
}

/// The variables and one more.
pub(crate) fn with_variable(
    variables: Deep<Row<VarText>>,
    variable: Deep<VarText>,
) -> Result<Deep<Row<VarText>>, AllocError>
    ensures { IfOk result (λ d. d ≡ with_variable variables variable) }
{
    match variables {
        Deep::Built(mut items, depth) => match variable {
            Deep::Built(variable, other) => {
                items.push(variable)?;
                Ok(Deep::Built(items, depth.max(other)))
            }
            Deep::TooDeep => Ok(Deep::TooDeep),
        },
        Deep::TooDeep => {
            drop(variable);
            Ok(Deep::TooDeep)
        }
    }
}

/// A name with its arguments.
pub(crate) fn applied_type(
    alloc: Global,
    at: u32,
    name: Bytes,
    arguments: Deep<Row<ArgText>>,
) -> Result<Deep<TypeText>, AllocError>
    ensures { IfOk result (λ d. d ≡ applied_type at name arguments) }
{
    match arguments {
        Deep::Built(items, depth) if depth < MOST_TYPE_DEPTH => {
            let arguments = items.into_shared(alloc)?;
            Ok(Deep::Built(TypeText::Applied(at, name, arguments), depth + 1))
        }
        arguments => {
            drop(arguments);
            Ok(Deep::TooDeep)
        }
    }
}

/// A type in parentheses, with the variables of its `where`.
pub(crate) fn paren(
    alloc: Global,
    at: u32,
    ty: Deep<TypeText>,
    variables: Deep<Row<VarText>>,
) -> Result<Deep<TypeText>, AllocError>
    ensures { IfOk result (λ d. d ≡ paren at ty variables) }
{
    match ty {
        Deep::Built(ty, depth) => match variables {
            Deep::Built(items, other) => {
                let depth = depth.max(other);
                if depth >= MOST_TYPE_DEPTH {
                    drop(ty);
                    return Ok(Deep::TooDeep);
                }
                let ty = SharedNode::new(alloc, ty)?;
                let variables = items.into_shared(alloc)?;
                Ok(Deep::Built(TypeText::Paren(at, ty, variables), depth + 1))
            }
            Deep::TooDeep => {
                drop(ty);
                Ok(Deep::TooDeep)
            }
        },
        Deep::TooDeep => {
            drop(variables);
            Ok(Deep::TooDeep)
        }
    }
}

/// A variable with an upper bound.
pub(crate) fn below_bound(
    alloc: Global,
    at: u32,
    name: Bytes,
    high: Deep<TypeText>,
) -> Result<Deep<VarText>, AllocError>
    ensures { IfOk result (λ d. d ≡ below_bound at name high) }
{
    match high {
        Deep::Built(high, depth) => {
            let high = SharedNode::new(alloc, high)?;
            Ok(Deep::Built(VarText::Below(at, name, high), depth))
        }
        Deep::TooDeep => Ok(Deep::TooDeep),
    }
}

/// A variable with a lower bound.
pub(crate) fn above_bound(
    alloc: Global,
    at: u32,
    name: Bytes,
    low: Deep<TypeText>,
) -> Result<Deep<VarText>, AllocError>
    ensures { IfOk result (λ d. d ≡ above_bound at name low) }
{
    match low {
        Deep::Built(low, depth) => {
            let low = SharedNode::new(alloc, low)?;
            Ok(Deep::Built(VarText::Above(at, name, low), depth))
        }
        Deep::TooDeep => Ok(Deep::TooDeep),
    }
}

/// A variable with both bounds.
pub(crate) fn between_bound(
    alloc: Global,
    low: Deep<TypeText>,
    at: u32,
    name: Bytes,
    high: Deep<TypeText>,
) -> Result<Deep<VarText>, AllocError>
    ensures { IfOk result (λ d. d ≡ between_bound low at name high) }
{
    match low {
        Deep::Built(low, depth) => match high {
            Deep::Built(high, other) => {
                let (low, high) = two_nodes(alloc, low, high)?;
                Ok(Deep::Built(VarText::Between(low, at, name, high), depth.max(other)))
            }
            Deep::TooDeep => {
                drop(low);
                Ok(Deep::TooDeep)
            }
        },
        Deep::TooDeep => {
            drop(high);
            Ok(Deep::TooDeep)
        }
    }
}

/// Two types as nodes.
fn two_nodes(
    alloc: Global,
    low: TypeText,
    high: TypeText,
) -> Result<(SharedNode<TypeText>, SharedNode<TypeText>), AllocError>
    ensures { IfOk result (λ nodes. nodes ≡ (low, high)) }
{
    match SharedNode::new(alloc, low) {
        Ok(low) => {
            let high = SharedNode::new(alloc, high)?;
            Ok((low, high))
        }
        Err(error) => {
            drop(high);
            Err(error)
        }
    }
}
