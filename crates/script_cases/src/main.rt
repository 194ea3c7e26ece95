//! What the readers and the printer of scripts answer to the texts on standard input, a case a line.
//!
//! `read TEXT` asks for the number of items or the fault with its place, `tree TEXT` for the tree, and `print TEXT` for the
//! printed text and whether it reads back as the same. `tokens TEXT` asks for the tokens with their places or the fault, and
//! `marks TEXT` for how many of them the grammar sees, with the marks of the first. `type N TEXT` asks for the number of the
//! token behind the type that begins with token N, and `places N TEXT` for that type with the places in it.
//!
//! In a text `\n` is a newline, `\x` with two hexadecimal digits is a byte, and `\` with a number and a character is that
//! character so many times. Lines that begin with `|` come before the text of the next case, each with its newline. Any other
//! line is a heading.
#![tactic(auto)]

mod answers;
mod case_text;
mod lexical;
mod outline;
mod outline_heads;
mod outline_items;
mod outline_types;
mod text;
mod type_places;

use crate::answers::{printed, read_as, tree_of};
use crate::case_text::{expand, put_line};
use crate::lexical::{marks_of, tokens_of, type_end, type_tree};
use std::io::{self, BufRead, BufReader};

/// Answers the case of a line.
fn answer(rt: &HostRuntime, word: &str, source: &[u8], line: &str) -> io::Result<()> {
    let found = match word {
        "read" => read_as(rt.alloc(), source)?,
        "tree" => tree_of(rt.alloc(), source)?,
        "tokens" => tokens_of(rt.alloc(), source)?,
        "marks" => marks_of(rt.alloc(), source)?,
        _ => {
            let lines = printed(rt.alloc(), source)?;
            return println!(rt; "{line} =>\n{lines}");
        }
    };
    println!(rt; "{line} => {found}")
}

/// Answers the case of a line that asks for a type.
fn answer_type(
    rt: &HostRuntime,
    word: &str,
    source: &[u8],
    from: usize,
    line: &str,
) -> io::Result<()> {
    let found = match word {
        "type" => type_end(rt.alloc(), source, from)?,
        _ => type_tree(rt.alloc(), source, from)?,
    };
    println!(rt; "{line} => {found}")
}

/// Takes a line. The text holds the lines before the text of the next case.
fn take(rt: &HostRuntime, text: &mut Vec<u8>, line: &str) -> io::Result<()> {
    let (word, rest) = line.split_once(' ').unwrap_or((line, ""));
    match word {
        "|" => Ok(put_line(text, rest.as_bytes())?),
        "read" | "tree" | "print" | "tokens" | "marks" => {
            expand(text, rest.as_bytes())?;
            answer(rt, word, text.as_slice(), line)?;
            text.clear();
            Ok(())
        }
        "type" | "places" => {
            let (number, rest) = rest.split_once(' ').unwrap_or((rest, ""));
            expand(text, rest.as_bytes())?;
            let from = number.parse::<usize>().unwrap_or(0);
            answer_type(rt, word, text.as_slice(), from, line)?;
            text.clear();
            Ok(())
        }
        _ => println!(rt; "{line}"),
    }
}

fn main(rt: HostRuntime) -> io::Result<()> {
    let alloc = rt.alloc();
    let mut text = Vec::new(alloc);
    for line in BufReader::new(alloc, rt.reader())?.lines(alloc) {
        take(&rt, &mut text, line?.as_str())?;
    }
    Ok(())
}
