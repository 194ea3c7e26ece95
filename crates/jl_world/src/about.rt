//! What the words are about, and the rule that they keep.

use crate::view::View;
use atomic_table::TableRule;
use jl_program::tree::Program;
use std::snapshot::Snapshot;

/// The program and the fuel of a run, and for how many keys and rows there are words.
#[derive(Drop)]
pub struct About {
    pub program: Snapshot<Program>,
    pub fuel: u64,
    pub keys: u64,
    pub rows: u64,
}

/// The rule of the words: between any two steps they tell the events of the book's seat.
pub struct WordRule;

impl TableRule<(), View, About> for WordRule {
    ghost use Rattle.jl_world.specs.Rule.{Holds, first_view};

    ghost holds = { Holds };

    ghost first = { first_view };
}
