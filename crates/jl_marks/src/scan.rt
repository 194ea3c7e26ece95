//! What the pass that marks the tokens keeps of the tokens behind a token.

use jl_grammar::mark::{Marks, Named, NextToken, Opening, Shape};
use jl_model::rows::Stack;

/// A closing bracket whose opening one lies further to the left, and what follows it; or a bracket of another shape than
/// the one that it would end.
#[derive(Clone, Copy)]
pub enum Closing {
    Ends(Shape, NextToken),
    Wrong,
}

/// What the marks of a token ask of the tokens behind it.
#[derive(Clone, Copy)]
pub struct Near {
    /// what the first of them tells
    pub told: NextToken,
    /// what follows the brackets that they begin with
    pub round: NextToken,
    pub curly: NextToken,
    /// what follows the parameters, behind `Base.:`, `Base.` and `Base`
    pub colon_head: NextToken,
    pub dot_head: NextToken,
    pub base_head: NextToken,
    /// whether they begin with `(`
    pub calls: bool,
    /// what they begin behind `Base.` and `Threads.`
    pub base: Opening,
    pub threads: Opening,
    pub named: Named,
}

/// The marks of the tokens so far, from the right, and what the next one to the left asks of them.
#[derive(Drop)]
pub struct Scan {
    pub marks: Stack<Marks>,
    pub closing: Stack<Closing>,
    pub near: Near,
}
