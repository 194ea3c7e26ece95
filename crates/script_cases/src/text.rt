//! A text that is written piece by piece.

use std::alloc::{AllocError, Global};

/// A text so far. Where memory runs out for a piece, nothing more is written and the end answers it; so no function that
/// writes has an answer of its own.
#[derive(Drop)]
pub struct Written {
    alloc: Global,
    text: String,
    outcome: Result<(), AllocError>,
}

impl Written {
    /// No text.
    pub fn new(alloc: Global) -> Written {
        Written {
            alloc,
            text: String::new(alloc),
            outcome: Ok(()),
        }
    }

    /// Puts a piece behind the text.
    pub fn put(&mut self, piece: &str) {
        if self.outcome.is_ok() {
            self.outcome = self.text.push_str(piece);
        }
    }

    /// Puts what was made for the text behind it.
    fn put_made(&mut self, made: Result<String, AllocError>) {
        match made {
            Ok(piece) => self.put(piece.as_str()),
            Err(error) => self.outcome = Err(error),
        }
    }

    /// Puts a number behind the text.
    pub fn put_number(&mut self, number: i64) {
        let alloc = self.alloc;
        self.put_made(format!(in alloc; "{number}"));
    }

    /// Puts a string behind the text, in quotes and with its escapes.
    pub fn put_quoted(&mut self, string: &str) {
        let alloc = self.alloc;
        self.put_made(format!(in alloc; "{string:?}"));
    }

    /// The text, where memory sufficed for all of it.
    pub fn finish(self) -> Result<String, AllocError> {
        let Written { text, outcome, .. } = self;
        match outcome {
            Ok(()) => Ok(text),
            Err(error) => Err(error),
        }
    }
}
