//! The reader of scripts: the machine of jl_grammar as code, one function for each function of its definition.
//!
//! `forms` and `items` make the nodes of the tree with their depth, `levels` holds what is before an operand, and `blocks`
//! ends blocks. What a token makes of a reading is in `operands` where there must be an operand, in `after_operand` after one,
//! in `brackets` between brackets, in `after_expr` after a whole expression, and in `entries`, `heads`, `declarations`,
//! `special` and `types` at items and statements. `step` is one token anywhere, and `reading` is the loop.
//!
//! Each function's answer is that of the definition of its name in jl_grammar (`Forms`, `Levels`, `Turns`, `Machine`): the point
//! after the token, or none where the token is wrong. The one error is that memory ran out. The rest of the reading, and the box
//! of what is before an operand, are changed where they are, so that a token moves a pointer and no state. The depth goes with
//! each form because a tree that is too deep is not built: what walks over trees later, and drops them, is recursive.
//!
//! What may begin with the same tokens, as `f(x)` the head of a method and a call, is not read twice: the marks that jl_marks
//! put on the tokens choose the form at its first one.
#![tactic(auto)]

mod after_expr;
mod after_operand;
mod blocks;
mod brackets;
mod declarations;
mod entries;
pub mod fault;
mod forms;
mod heads;
mod items;
mod levels;
mod operands;
mod reading;
mod special;
mod step;
mod types;

pub use reading::read;
