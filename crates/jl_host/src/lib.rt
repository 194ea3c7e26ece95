//! The functions that a program hands in: the operations of the prelude, each kept beside the fact about its answers, and the methods of a
//! host program, whose answers a relation allows.
#![tactic(auto)]

mod method;
mod op;
pub mod operations;
mod ops;
mod reply;

pub use method::{HostMethod, Hosts, MOST_METHODS, Relation};
pub use op::HostOp;
pub use ops::HostOps;
pub use reply::OpReply;
