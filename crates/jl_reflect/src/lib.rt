//! What a history tells of one key: in which worlds which method is chosen for it (Julia manual, Redefining Methods; Belyakova et al.,
//! OOPSLA 2020).
#![tactic(auto)]

mod choices;
mod key;
mod key_types;
mod ranges;
mod type_text;

pub use key::{QueryFault, key_of};
pub use ranges::{Span, spans};
