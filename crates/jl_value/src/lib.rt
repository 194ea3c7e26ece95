//! Values: their types, their identity, and how tuples and structs are made (Julia manual, Types: Composite Types, Tuple
//! Types).
//!
//! [`type_of`] and [`copy`] cost the same whatever the value. [`tuple`] and [`construct`] cost the number of their parts, and
//! one pass over the types of these: the nodes and the depth of the parts are kept. [`egal`] visits each part.
#![tactic(auto)]

mod field;
mod identity;
mod kept;
mod made;
mod make;
mod share;

pub use identity::{copy, egal};
pub use kept::type_of;
pub use made::MakeFault;
pub use make::{construct, tuple};
pub use share::share_env;
