//! The script of a case, line by line.

use std::alloc::{AllocError, Global};

/// The most lines that one line of a case stands for.
const MOST: usize = 2_000_000;

/// The lines of a script so far, with a newline between two of them.
#[derive(Drop)]
pub struct ScriptText {
    text: Vec<u8>,
    is_begun: bool,
}

impl ScriptText {
    /// No line.
    pub fn new(alloc: Global) -> ScriptText {
        ScriptText {
            text: Vec::new(alloc),
            is_begun: false,
        }
    }

    /// The lines.
    pub fn text(&self) -> &[u8] {
        self.text.as_slice()
    }

    /// Forgets the lines.
    pub fn clear(&mut self) {
        self.text.clear();
        self.is_begun = false;
    }

    /// Puts a line behind the others.
    fn add_line(&mut self, line: &[u8]) -> Result<(), AllocError> {
        if self.is_begun {
            self.text.push(b'\n')?;
        }
        self.is_begun = true;
        self.text.extend_from_slice(line)
    }

    /// Puts a line behind the others so many times, once where `count` is no number. A blank in front of the line is none of it.
    pub fn add(&mut self, count: &str, line: &str) -> Result<(), AllocError> {
        let line = line.strip_prefix(" ").unwrap_or(line);
        let times = count.parse::<usize>().unwrap_or(1);
        for _ in 0..times.min(MOST) {
            self.add_line(line.as_bytes())?;
        }
        Ok(())
    }

    /// Puts a text so many times at the end of the last line. A blank in front of it is none of it. Nothing is put where `count` is no
    /// number.
    pub fn extend(&mut self, count: &str, text: &str) -> Result<(), AllocError> {
        let text = text.strip_prefix(" ").unwrap_or(text);
        let times = count.parse::<usize>().unwrap_or(0);
        for _ in 0..times.min(MOST) {
            self.is_begun = true;
            self.text.extend_from_slice(text.as_bytes())?;
        }
        Ok(())
    }
}
