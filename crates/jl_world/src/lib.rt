//! The shared words that tell a recorded history: worlds, lengths, heads and rows, which threads read without a lock.
#![tactic(auto)]

mod about;
mod blank;
mod name;
mod row_word;
mod rows;
mod seats;
mod steps;
mod view;
mod world;

pub use about::{About, WordRule};
pub use blank::Blank;
pub use name::Naming;
pub use row_word::{Place, RowWord};
pub use seats::{BookSeat, TaskSeat};
pub use view::{BookView, Stored, TaskView, View};
pub use world::World;
