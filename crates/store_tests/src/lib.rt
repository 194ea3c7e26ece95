//! Tests of the base, of the shared words and the cache, of the book of a run and of its board, for what no script and no program of
//! cases shows.
#![tactic(auto)]

#[cfg(test)]
mod asks;
#[cfg(test)]
mod board_tests;
#[cfg(test)]
mod book_tests;
#[cfg(test)]
mod ends;
#[cfg(test)]
mod gate_tests;
#[cfg(test)]
mod history_tests;
#[cfg(test)]
mod index;
#[cfg(test)]
mod io_tests;
#[cfg(test)]
mod keys;
#[cfg(test)]
mod line_tests;
#[cfg(test)]
mod list_tests;
#[cfg(test)]
mod making;
#[cfg(test)]
mod programs;
#[cfg(test)]
mod readers;
#[cfg(test)]
mod rounds;
#[cfg(test)]
mod runs;
#[cfg(test)]
mod searches;
#[cfg(test)]
mod snapshot;
#[cfg(test)]
mod steps;
#[cfg(test)]
mod threads;
#[cfg(test)]
mod type_tests;
#[cfg(test)]
mod value_tests;
#[cfg(test)]
mod word_tests;

/// Whether the answer is yes. In a test a comparison with `Ok(true)` would be unrolled.
#[cfg(test)]
pub(crate) fn holds<E: Drop>(answer: Result<bool, E>) -> bool {
    match answer {
        Ok(is_yes) => is_yes,
        Err(error) => {
            drop(error);
            false
        }
    }
}
