//! The tokens that the grammar sees: all but the newlines that are no tokens.

ghost use Rattle.std.specs.Prelude.{◌≡◌, ◌∷◌, ◌++◌, [], IfOk, OnOk, if◌then◌else◌, map};
ghost use Rattle.jl_typeread.specs.Lexemes.{lexeme_of};
ghost use Rattle.jl_grammar.specs.Newlines.{close_form, around_after_operator, around_after_word, around_after, previous_after_binary, previous_after_colon, previous_after, previous_after_operator, previous_after_word, in_bracket, is_dropped, is_shown, drop_newlines};

use jl_grammar::mark::{Around, Previous};
use jl_model::rows::Stack;
use jl_token::token::{Operator, Token};
use jl_typeread::terminal::{Lexeme, Terminal, Word};
use std::alloc::{AllocError, Global};

/// One form less is open.
fn close_form(around: &mut Stack<Around>)
    ensures { around.new ≡ close_form around.old }
{
    match around.pop() {
        None => {}
        Some(_) => {}
    }
}

/// An operator or a mark opens a form or ends one.
fn around_after_operator(operator: Operator, around: &mut Stack<Around>) -> Result<(), AllocError>
    ensures { OnOk result (around.new ≡ around_after_operator operator around.old) }
{
    match operator {
        Operator::OpenParen | Operator::OpenBracket | Operator::OpenBrace => {
            around.push(Around::Bracket)
        }
        Operator::CloseParen | Operator::CloseBracket | Operator::CloseBrace => {
            close_form(around);
            Ok(())
        }
        _ => Ok(()),
    }
}

/// A reserved word opens a form or ends one.
fn around_after_word(word: Word, around: &mut Stack<Around>) -> Result<(), AllocError>
    ensures { OnOk result (around.new ≡ around_after_word word around.old) }
{
    match word {
        Word::Function | Word::Struct | Word::If | Word::Begin | Word::Quote => {
            around.push(Around::Block)
        }
        Word::End => {
            close_form(around);
            Ok(())
        }
        _ => Ok(()),
    }
}

/// Changes what is open to what is open around the next token.
fn around_after(terminal: &Terminal, around: &mut Stack<Around>) -> Result<(), AllocError>
    ensures { OnOk result (around.new ≡ around_after terminal.now around.old) }
{
    match terminal {
        Terminal::Operator(operator) => around_after_operator(*operator, around),
        Terminal::Word(word) => around_after_word(*word, around),
        _ => Ok(()),
    }
}

/// What a binary operator leaves before a newline.
fn previous_after_binary(previous: Previous) -> Previous
    ensures { result ≡ previous_after_binary previous }
{
    match previous {
        Previous::Ends => Previous::Joins,
        _ => Previous::Other,
    }
}

/// What a `:` leaves before a newline.
fn previous_after_colon(previous: Previous) -> Previous
    ensures { result ≡ previous_after_colon previous }
{
    match previous {
        Previous::Dot => Previous::Other,
        _ => Previous::Joins,
    }
}

/// What an operator or a mark leaves before a newline.
fn previous_after_operator(operator: Operator, previous: Previous) -> Previous
    ensures { result ≡ previous_after_operator operator previous }
{
    match operator {
        Operator::Comma
        | Operator::Assign
        | Operator::Question
        | Operator::Subtype
        | Operator::Supertype => Previous::Joins,
        Operator::Colon => previous_after_colon(previous),
        Operator::Dot => Previous::Dot,
        Operator::CloseParen | Operator::CloseBracket | Operator::CloseBrace => Previous::Ends,
        Operator::OpenParen | Operator::OpenBracket | Operator::OpenBrace => Previous::Other,
        Operator::HasType | Operator::Not | Operator::Semicolon => Previous::Other,
        _ => previous_after_binary(previous),
    }
}

/// What a reserved word leaves before a newline.
fn previous_after_word(word: Word, previous: Previous) -> Previous
    ensures { result ≡ previous_after_word word previous }
{
    match word {
        Word::Isa => previous_after_binary(previous),
        Word::End | Word::True | Word::False | Word::Nothing => Previous::Ends,
        _ => Previous::Other,
    }
}

/// Whether the innermost form that is open is a bracket.
fn in_bracket(around: &Stack<Around>) -> bool
    ensures { result ≡ in_bracket around.now }
{
    match around.top() {
        None => false,
        Some(Around::Bracket) => true,
        Some(Around::Block) => false,
    }
}

/// Whether a newline here is no token.
fn is_dropped(around: &Stack<Around>, previous: Previous) -> bool
    ensures { result ≡ is_dropped around.now previous }
{
    match previous {
        Previous::Joins => true,
        _ => in_bracket(around),
    }
}

/// What the next token stands behind.
fn previous_after(terminal: &Terminal, around: &Stack<Around>, previous: Previous) -> Previous
    ensures { result ≡ previous_after terminal.now around.now previous }
{
    match terminal {
        Terminal::Operator(operator) => previous_after_operator(*operator, previous),
        Terminal::Word(word) => previous_after_word(*word, previous),
        Terminal::Name(_) => Previous::Ends,
        Terminal::Number(_) => Previous::Ends,
        Terminal::Text(_) => Previous::Ends,
        Terminal::Macro(_) => Previous::Other,
        Terminal::Newline => {
            if is_dropped(around, previous) {
                return previous;
            }
            Previous::Other
        }
        Terminal::End => Previous::Other,
    }
}

/// Whether the grammar sees the token.
fn is_shown(terminal: &Terminal, around: &Stack<Around>, previous: Previous) -> bool
    ensures { result ≡ is_shown terminal.now around.now previous }
{
    match terminal {
        Terminal::Newline => !is_dropped(around, previous),
        _ => true,
    }
}

/// One token more, if the grammar sees it.
fn show(lexemes: &mut Vec<Lexeme>, lexeme: Lexeme, is_shown: bool) -> Result<(), AllocError>
    ensures { OnOk result (lexemes.new.items
        ≡ lexemes.old.items ++ (if is_shown then lexeme ∷ [] else [])) }
{
    if is_shown {
        lexemes.push(lexeme)?;
    }
    Ok(())
}

/// The tokens that the grammar sees.
pub fn drop_newlines(alloc: Global, tokens: &[Token]) -> Result<Vec<Lexeme>, AllocError>
    ensures { IfOk result (λ lexemes. lexemes.items ≡ drop_newlines (map lexeme_of tokens.now)) }
{
    let mut lexemes = Vec::new(alloc);
    let mut around = Stack::new(alloc);
    let mut previous = Previous::Other;
    for token in tokens {
        let lexeme = Lexeme::of(token)?;
        let is_shown = is_shown(&lexeme.terminal, &around, previous);
        previous = previous_after(&lexeme.terminal, &around, previous);
        around_after(&lexeme.terminal, &mut around)?;
        show(&mut lexemes, lexeme, is_shown)?;
    }
    Ok(lexemes)
}
