//! What the grammar sees of a token: its terminal, and the marks that choose between the rules.

use jl_typeread::terminal::Lexeme;

/// What a name begins where an operand stands, by the tokens behind it.
#[derive(Clone, Copy, Debug)]
pub enum Opening {
    Plain,
    /// `name =`
    Binding,
    /// the name of a function and `(`
    Call,
    /// `name {`
    Make,
    /// `Base.invokelatest(`
    Latest,
    /// `Base.delete_method(`
    Delete,
    /// `Threads.@spawn`
    Spawn,
    /// `eval(`
    Quote,
    /// `fetch(`
    Fetch,
    /// `print(`
    Print,
    /// `println(`
    Println,
}

/// What is told by a token behind a matching bracket.
#[derive(Clone, Copy, Debug)]
pub enum Ahead {
    Nothing,
    /// the head of a method
    Method,
    /// the left type of `S <: T`
    Sub,
}

/// The marks of a token.
#[derive(Clone, Copy)]
pub struct Marks {
    pub opening: Opening,
    pub ahead: Ahead,
}

/// A token with its marks.
#[derive(Drop)]
pub struct Marked {
    pub lexeme: Lexeme,
    pub marks: Marks,
}

/// What stands before a newline, as far as the newline rule asks.
#[derive(Clone, Copy)]
pub enum Previous {
    /// a token behind which a newline is no token
    Joins,
    /// the last token of an operand
    Ends,
    /// `.`
    Dot,
    Other,
}

/// What is open around a token.
#[derive(Clone, Copy)]
pub enum Around {
    Bracket,
    Block,
}

/// The kinds of brackets.
#[derive(Clone, Copy)]
pub enum Shape {
    Round,
    Square,
    Curly,
}

/// What a token is to the brackets.
#[derive(Clone, Copy)]
pub enum Mate {
    Opens(Shape),
    Closes(Shape),
    Neither,
}

/// What follows a bracket or a name, as far as the marks ask.
#[derive(Clone, Copy)]
pub enum NextToken {
    /// `=` or `where`
    Defines,
    /// `<:`
    Compares,
    Other,
}

/// What stands behind a name.
#[derive(Clone, Copy)]
pub enum Named {
    /// `(`
    Called,
    /// `{`
    Makes,
    /// `=`
    Binds,
    /// `.`, with what `Base` and what `Threads` would begin before it
    Dotted(Opening, Opening),
    Alone,
}
