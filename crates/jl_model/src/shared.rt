//! A list and a node that are shared: a copy costs one count, and threads may share it.

mod list;
mod node;

pub use list::SharedList;
pub use node::SharedNode;
