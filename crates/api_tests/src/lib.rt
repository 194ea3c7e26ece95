//! Tests of public calls that no text can show: runs on many threads and over devices that fail in mid-stream, tables of names, the
//! numbers of slots and variables, what is asked of a table of declarations, and what is kept of a program. All else is told by the
//! lines of script_cases and check_cases.
#![tactic(auto)]

#[cfg(test)]
mod call_tests;
#[cfg(test)]
mod calls;
#[cfg(test)]
mod declare_tests;
#[cfg(test)]
mod host_tests;
#[cfg(test)]
mod making;
#[cfg(test)]
mod names_tests;
#[cfg(test)]
mod programs;
#[cfg(test)]
mod ready_tests;
#[cfg(test)]
mod resolve_tests;
#[cfg(test)]
mod room_tests;
#[cfg(test)]
mod texts;
#[cfg(test)]
mod thread_tests;
#[cfg(test)]
mod walk_tests;
#[cfg(test)]
mod written_tests;

/// Whether the answer is yes. In a test a comparison with `Ok(true)` would be unrolled.
#[cfg(test)]
pub(crate) fn holds<E: Drop>(answer: Result<bool, E>) -> bool {
    match answer {
        Ok(is_yes) => is_yes,
        Err(error) => {
            drop(error);
            false
        }
    }
}
