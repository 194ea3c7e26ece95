//! The marks of the tokens: one pass from the right, which keeps of the tokens behind a token what its marks ask.
//!
//! It reads the tokens where they are and makes a list of marks alone, since a copy of all tokens is most of what such a
//! pass costs.

ghost use Rattle.std.specs.Prelude.{◌≡◌, ◌∷◌, [], List, IfOk, OnOk, if◌then◌else◌};
ghost use Rattle.jl_typeread.specs.declared.terminal.Terminal.{Terminal};
ghost use Rattle.jl_grammar.specs.Marks.{mate, mate_of, is_same_shape, round, curly, next_of, next_as_terminal, next_after, is_definition, is_subtype, is_function, is_base, colon_head, dot_head, base_head, is_head_start, is_left_start, ahead, named_call, is_call, base_call, base_opening, threads_opening, after_name, opening_of, opening, marks_of, terminals, with_marks};
ghost use Rattle.jl_marks.specs.Scan.{pop_closing, closing_by, answer, answer_of, next_after_match, near_of, all_marks, scan_all};

use crate::scan::{Closing, Near, Scan};
use crate::tokens::MarkedTokens;
use jl_grammar::mark::{Ahead, Marks, Mate, Named, NextToken, Opening, Shape};
use jl_model::rows::Stack;
use jl_token::token::Operator;
use jl_typeread::terminal::{Lexeme, Terminal, Word};
use std::alloc::{AllocError, Global};

/// What an operator is to the brackets.
fn mate_of(operator: Operator) -> Mate
    ensures { result ≡ mate_of operator }
{
    match operator {
        Operator::OpenParen => Mate::Opens(Shape::Round),
        Operator::OpenBracket => Mate::Opens(Shape::Square),
        Operator::OpenBrace => Mate::Opens(Shape::Curly),
        Operator::CloseParen => Mate::Closes(Shape::Round),
        Operator::CloseBracket => Mate::Closes(Shape::Square),
        Operator::CloseBrace => Mate::Closes(Shape::Curly),
        _ => Mate::Neither,
    }
}

/// What a token is to the brackets.
fn mate(terminal: &Terminal) -> Mate
    ensures { result ≡ mate terminal.now }
{
    match terminal {
        Terminal::Operator(operator) => mate_of(*operator),
        _ => Mate::Neither,
    }
}

/// Whether two brackets have one shape.
fn is_same_shape(left: Shape, right: Shape) -> bool
    ensures { result ≡ is_same_shape left right }
{
    match left {
        Shape::Round => match right {
            Shape::Round => true,
            _ => false,
        },
        Shape::Square => match right {
            Shape::Square => true,
            _ => false,
        },
        Shape::Curly => match right {
            Shape::Curly => true,
            _ => false,
        },
    }
}

/// A bracket of another shape comes first.
fn reject_bracket(alloc: Global, closing: &mut Stack<Closing>) -> Result<NextToken, AllocError>
    ensures { IfOk result (λ over. (over ≡ NextToken.Other) × (closing.new ≡ Closing.Wrong ∷ [])) }
{
    *closing = Stack::new(alloc);
    closing.push(Closing::Wrong)?;
    Ok(NextToken::Other)
}

/// What follows the bracket that ends an open one. In `closing` are then the closing brackets that are left.
fn open_bracket(
    alloc: Global,
    shape: Shape,
    closing: &mut Stack<Closing>,
) -> Result<NextToken, AllocError>
    ensures { IfOk result (λ over. (over ≡ answer shape closing.old)
        × (closing.new ≡ pop_closing shape closing.old)) }
{
    match closing.pop() {
        None => Ok(NextToken::Other),
        Some(Closing::Ends(other, follows)) => {
            if is_same_shape(other, shape) {
                return Ok(follows);
            }
            reject_bracket(alloc, closing)
        }
        Some(Closing::Wrong) => reject_bracket(alloc, closing),
    }
}

/// What follows the bracket that ends this one. In `closing` are then the closing brackets that are left.
fn step_bracket(
    alloc: Global,
    mate: Mate,
    told: NextToken,
    closing: &mut Stack<Closing>,
) -> Result<NextToken, AllocError>
    ensures { IfOk result (λ over. (over ≡ answer_of mate closing.old)
        × (closing.new ≡ closing_by mate told closing.old)) }
{
    match mate {
        Mate::Opens(shape) => open_bracket(alloc, shape, closing),
        Mate::Closes(shape) => {
            closing.push(Closing::Ends(shape, told))?;
            Ok(NextToken::Other)
        }
        Mate::Neither => Ok(NextToken::Other),
    }
}

/// What a token tells of itself.
fn next_as_terminal(terminal: &Terminal) -> NextToken
    ensures { result ≡ next_as_terminal terminal.now }
{
    match terminal {
        Terminal::Operator(Operator::Assign) => NextToken::Defines,
        Terminal::Word(Word::Where) => NextToken::Defines,
        Terminal::Operator(Operator::Subtype) => NextToken::Compares,
        _ => NextToken::Other,
    }
}

fn is_definition(follows: NextToken) -> bool
    ensures { result ≡ is_definition follows }
{
    match follows {
        NextToken::Defines => true,
        _ => false,
    }
}

fn is_subtype(follows: NextToken) -> bool
    ensures { result ≡ is_subtype follows }
{
    match follows {
        NextToken::Compares => true,
        _ => false,
    }
}

/// Whether a method can be added to the operator.
pub fn is_function(operator: Operator) -> bool
    ensures { result ≡ is_function operator }
{
    match operator {
        Operator::Plus
        | Operator::Minus
        | Operator::Times
        | Operator::Divide
        | Operator::Remainder => true,
        Operator::Equal | Operator::NotEqual | Operator::Not => true,
        Operator::Less | Operator::LessEqual | Operator::Greater | Operator::GreaterEqual => true,
        _ => false,
    }
}

fn is_base(name: &[u8]) -> bool
    ensures { result ≡ is_base name.now }
{
    name == b"Base".as_slice()
}

/// What follows the round brackets that begin with this token, by what follows the bracket that ends it.
fn round(terminal: &Terminal, over: NextToken) -> NextToken
    ensures { (ss : List Terminal) → over ≡ next_after_match (mate terminal.now) ss
        → result ≡ next_after (round (terminal.now ∷ ss)) }
{
    match terminal {
        Terminal::Operator(Operator::OpenParen) => over,
        _ => NextToken::Other,
    }
}

/// What follows the curly brackets that begin with this token.
fn curly(terminal: &Terminal, over: NextToken) -> NextToken
    ensures { (ss : List Terminal) → over ≡ next_after_match (mate terminal.now) ss
        → result ≡ next_after (curly (terminal.now ∷ ss)) }
{
    match terminal {
        Terminal::Operator(Operator::OpenBrace) => over,
        _ => NextToken::Other,
    }
}

/// What follows the parameters, behind `Base.:`.
fn colon_head(terminal: &Terminal, brackets: NextToken) -> NextToken
    ensures { (ss : List Terminal) → brackets ≡ next_after (round ss)
        → result ≡ next_after (colon_head (terminal.now ∷ ss)) }
{
    match terminal {
        Terminal::Operator(operator) => {
            if is_function(*operator) {
                return brackets;
            }
            NextToken::Other
        }
        _ => NextToken::Other,
    }
}

/// What follows the parameters, behind `Base.`.
fn dot_head(terminal: &Terminal, brackets: NextToken, colon: NextToken) -> NextToken
    ensures { (ss : List Terminal) → brackets ≡ next_after (round ss)
        → colon ≡ next_after (colon_head ss) → result ≡ next_after (dot_head (terminal.now ∷ ss)) }
{
    match terminal {
        Terminal::Name(_) => brackets,
        Terminal::Operator(Operator::Colon) => colon,
        _ => NextToken::Other,
    }
}

/// What follows the parameters, behind `Base`.
fn base_head(terminal: &Terminal, dot: NextToken) -> NextToken
    ensures { (ss : List Terminal) → dot ≡ next_after (dot_head ss)
        → result ≡ next_after (base_head (terminal.now ∷ ss)) }
{
    match terminal {
        Terminal::Operator(Operator::Dot) => dot,
        _ => NextToken::Other,
    }
}

/// Whether the head of a method begins with this token.
fn is_head_start(terminal: &Terminal, brackets: NextToken, base: NextToken) -> bool
    ensures { (ss : List Terminal) → brackets ≡ next_after (round ss)
        → base ≡ next_after (base_head ss) → result ≡ is_head_start (terminal.now ∷ ss) }
{
    match terminal {
        Terminal::Name(name) => is_definition(brackets)
            || (is_base(name.as_slice()) && is_definition(base)),
        _ => false,
    }
}

/// Whether the left type of a comparison begins with this token; the last argument is what follows the round brackets that
/// begin with it.
fn is_left_start(terminal: &Terminal, follows: NextToken, braces: NextToken, own: NextToken) -> bool
    ensures { (ss : List Terminal) → follows ≡ next_of ss → braces ≡ next_after (curly ss)
        → own ≡ next_after (round (terminal.now ∷ ss))
        → result ≡ is_left_start (terminal.now ∷ ss) }
{
    match terminal {
        Terminal::Name(_) => is_subtype(follows) || is_subtype(braces),
        _ => is_subtype(own),
    }
}

/// What a name before `(` begins.
fn named_call(name: &[u8]) -> Opening
    ensures { result ≡ named_call name.now }
{
    if name == b"eval".as_slice() {
        return Opening::Quote;
    }
    if name == b"fetch".as_slice() {
        return Opening::Fetch;
    }
    if name == b"println".as_slice() {
        return Opening::Println;
    }
    if name == b"print".as_slice() {
        return Opening::Print;
    }
    Opening::Call
}

/// Whether `(` follows.
fn is_call(terminal: &Terminal) -> bool
    ensures { (ss : List Terminal) → result ≡ is_call (terminal.now ∷ ss) }
{
    match terminal {
        Terminal::Operator(Operator::OpenParen) => true,
        _ => false,
    }
}

/// What a name behind `Base.` begins.
fn base_call(is_call: bool, name: &[u8]) -> Opening
    ensures { result ≡ base_call is_call name.now }
{
    if !is_call {
        return Opening::Plain;
    }
    if name == b"invokelatest".as_slice() {
        return Opening::Latest;
    }
    if name == b"delete_method".as_slice() {
        return Opening::Delete;
    }
    Opening::Call
}

/// What this token begins behind `Base.`.
fn base_opening(terminal: &Terminal, calls: bool) -> Opening
    ensures { (ss : List Terminal) → calls ≡ is_call ss
        → result ≡ base_opening (terminal.now ∷ ss) }
{
    match terminal {
        Terminal::Name(name) => base_call(calls, name.as_slice()),
        Terminal::Operator(Operator::Colon) => Opening::Call,
        _ => Opening::Plain,
    }
}

/// What this token begins behind `Threads.`.
fn threads_opening(terminal: &Terminal) -> Opening
    ensures { (ss : List Terminal) → result ≡ threads_opening (terminal.now ∷ ss) }
{
    match terminal {
        Terminal::Macro(name) => {
            if name.as_slice() == b"spawn".as_slice() {
                return Opening::Spawn;
            }
            Opening::Plain
        }
        _ => Opening::Plain,
    }
}

/// What this token is behind a name.
fn after_name(terminal: &Terminal, base: Opening, threads: Opening) -> Named
    ensures { (ss : List Terminal) → base ≡ base_opening ss → threads ≡ threads_opening ss
        → result ≡ after_name (terminal.now ∷ ss) }
{
    match terminal {
        Terminal::Operator(Operator::OpenParen) => Named::Called,
        Terminal::Operator(Operator::OpenBrace) => Named::Makes,
        Terminal::Operator(Operator::Assign) => Named::Binds,
        Terminal::Operator(Operator::Dot) => Named::Dotted(base, threads),
        _ => Named::Alone,
    }
}

/// What a name begins.
fn opening_of(named: Named, name: &[u8]) -> Opening
    ensures { result ≡ opening_of named name.now }
{
    match named {
        Named::Called => named_call(name),
        Named::Makes => Opening::Make,
        Named::Binds => Opening::Binding,
        Named::Dotted(base, threads) => {
            if is_base(name) {
                return base;
            }
            if name == b"Threads".as_slice() {
                return threads;
            }
            Opening::Plain
        }
        Named::Alone => Opening::Plain,
    }
}

/// What this token begins.
fn opening(terminal: &Terminal, named: Named) -> Opening
    ensures { (ss : List Terminal) → named ≡ after_name ss → result ≡ opening (terminal.now ∷ ss) }
{
    match terminal {
        Terminal::Name(name) => opening_of(named, name.as_slice()),
        _ => Opening::Plain,
    }
}

/// What is known of no tokens.
fn nothing_near() -> Near
    ensures { result ≡ near_of [] }
{
    let other = NextToken::Other;
    Near {
        told: other,
        round: other,
        curly: other,
        colon_head: other,
        dot_head: other,
        base_head: other,
        calls: false,
        base: Opening::Plain,
        threads: Opening::Plain,
        named: Named::Alone,
    }
}

/// What is known of the tokens from this one on, by what is known of those behind it.
fn nearer(terminal: &Terminal, near: Near, over: NextToken) -> Near
    ensures { (ss : List Terminal) → near ≡ near_of ss
        → over ≡ next_after_match (mate terminal.now) ss → result ≡ near_of (terminal.now ∷ ss) }
{
    Near {
        told: next_as_terminal(terminal),
        round: round(terminal, over),
        curly: curly(terminal, over),
        colon_head: colon_head(terminal, near.round),
        dot_head: dot_head(terminal, near.round, near.colon_head),
        base_head: base_head(terminal, near.dot_head),
        calls: is_call(terminal),
        base: base_opening(terminal, near.calls),
        threads: threads_opening(terminal),
        named: after_name(terminal, near.base, near.threads),
    }
}

/// What is told by the token behind a matching bracket.
fn ahead(begins_head: bool, begins_left: bool) -> Ahead
    ensures { result ≡ (if begins_head then Ahead.Method else if begins_left then
        Ahead.Sub else Ahead.Nothing) }
{
    if begins_head {
        return Ahead::Method;
    }
    if begins_left {
        return Ahead::Sub;
    }
    Ahead::Nothing
}

/// The marks of a token, by what is known of the tokens behind it, and what follows the round brackets that begin with it.
fn marks_of(terminal: &Terminal, near: Near, own: NextToken) -> Marks
    ensures { (ss : List Terminal) → near ≡ near_of ss
        → own ≡ next_after (round (terminal.now ∷ ss)) → result ≡ marks_of (terminal.now ∷ ss) }
{
    let begins_head = is_head_start(terminal, near.round, near.base_head);
    let begins_left = is_left_start(terminal, near.told, near.curly, own);
    Marks {
        opening: opening(terminal, near.named),
        ahead: ahead(begins_head, begins_left),
    }
}

/// One token more to the left.
fn turn(alloc: Global, terminal: &Terminal, scan: &mut Scan) -> Result<(), AllocError>
    ensures { (ss : List Terminal) → scan.old ≡ scan_all ss
        → OnOk result (scan.new ≡ scan_all (terminal.now ∷ ss)) }
{
    let near = scan.near;
    let over = step_bracket(alloc, mate(terminal), near.told, &mut scan.closing)?;
    let next = nearer(terminal, near, over);
    scan.marks.push(marks_of(terminal, near, next.round))?;
    scan.near = next;
    Ok(())
}

/// The marks of the tokens.
fn all_marks(alloc: Global, lexemes: &[Lexeme]) -> Result<Stack<Marks>, AllocError>
    ensures { IfOk result (λ marks. marks ≡ all_marks (terminals lexemes.now)) }
{
    let mut scan = Scan {
        marks: Stack::new(alloc),
        closing: Stack::new(alloc),
        near: nothing_near(),
    };
    let mut left = lexemes;
    while let Some((lexeme, rest)) = left.split_last() {
        turn(alloc, &lexeme.terminal, &mut scan)?;
        left = rest;
    }
    Ok(scan.marks)
}

/// The tokens with their marks.
pub fn with_marks(alloc: Global, lexemes: Vec<Lexeme>) -> Result<MarkedTokens, AllocError>
    ensures { IfOk result (λ tokens. tokens ≡ with_marks lexemes.items) }
{
    let marks = all_marks(alloc, lexemes.as_slice())?;
    Ok(MarkedTokens::new(lexemes, marks))
}
