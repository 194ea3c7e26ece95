//! A row of a signature.

use jl_model::ty::Tys;

/// A row of a signature: its parts, and for each variable the alternative of its upper bound that it takes, where it is a
/// diagonal one of the row, and else `Any`. The atom of variable v for alternative i of its upper bound is the variable
/// v + width * (i + 1), where width is the number of variables (Zappa Nardelli et al., OOPSLA 2018).
#[derive(Drop)]
pub struct SigRow {
    pub parts: Tys,
    pub chosen: Tys,
}
