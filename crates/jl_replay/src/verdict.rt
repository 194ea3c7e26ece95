//! The verdict on a text.

use jl_causes::Cause;

/// What is judged of the text of a history.
#[derive(Clone, Copy, PartialEq, Eq, Debug)]
pub enum Verdict {
    /// It is the text of a legal history of so many events.
    Legal(u32),
    /// This line, from 1, is the first that is not of the form.
    BadText(u32),
    /// This event, from 0, is the first that has a cause, and this is the first of its causes.
    Illegal(u32, Cause),
}
