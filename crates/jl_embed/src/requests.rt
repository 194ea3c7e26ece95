//! What a line asks for.

ghost use Rattle.std.specs.Prelude.{◌≡◌, Some, None, MatchOption};
ghost use Rattle.jl_embed.specs.Requests.{asked_of, question_in, request_of, call_of};

use crate::cuts::cut;
use crate::names::is_identifier;
use crate::numbers::{method, number};

/// A method of the host, and two numbers for it.
#[derive(Clone, Copy)]
pub(crate) struct Question {
    pub(crate) method: u32,
    pub(crate) a: i64,
    pub(crate) b: i64,
}

/// What a line asks for.
#[derive(Clone, Copy)]
pub(crate) enum Request<'a> {
    /// Nothing: it is no request.
    Bad,
    /// This line is to be added to the text.
    Add(&'a [u8]),
    /// The function of this name is to be called with what the host answers.
    Call(&'a [u8], Question),
}

/// The question of a `call`, after its name.
fn read_question(count: u32, text: &[u8]) -> Option<Question>
    ensures { MatchOption result (question_in count text.now ≡ None) (λ q. question_in count text.now ≡ Some (q.method, q.a, q.b)) }
{
    let (first, rest) = cut(b' ', text)?;
    let (a, b) = cut(b' ', rest)?;
    let method = method(count, first)?;
    let a = number(a)?;
    let b = number(b)?;
    Some(Question { method, a, b })
}

/// What a `call` asks for, after that word.
fn read_call<'a>(count: u32, text: &'a [u8]) -> Request<'a>
    ensures { asked_of result ≡ call_of count text.now }
{
    let Some((name, rest)) = cut(b' ', text) else {
        return Request::Bad;
    };
    if !is_identifier(name) {
        return Request::Bad;
    }
    match read_question(count, rest) {
        Some(question) => Request::Call(name, question),
        None => Request::Bad,
    }
}

/// What a line asks for, of a host with so many methods.
pub(crate) fn read_request<'a>(count: u32, line: &'a [u8]) -> Request<'a>
    ensures { asked_of result ≡ request_of count line.now }
{
    let Some((word, rest)) = cut(b' ', line) else {
        return Request::Bad;
    };
    if word == b"add".as_slice() {
        return Request::Add(rest);
    }
    if word == b"call".as_slice() {
        return read_call(count, rest);
    }
    Request::Bad
}
