//! How much a declaration may have.

ghost use Rattle.std.specs.Prelude.{◌≡◌, IsTrue, ◌↔◌, length};
ghost use Rattle.jl_model.specs.Refusals.{ancestors, TooMany};

use jl_model::builtin::BUILTIN_TYPES;
use jl_model::limits::{MOST_ANCESTORS, MOST_DECLARED_TYPES, MOST_FIELDS, MOST_TYPE_PARAMETERS};
use jl_model::ty::{Decl, Ty};
use jl_types::Table;

/// The most types, the built-in ones among them.
const MOST_TYPES: u32 = MOST_DECLARED_TYPES as u32 + BUILTIN_TYPES;

/// How many ancestors the declared type would have.
#[tactic(auto, using(crate::proofs::AncestorLemmas::counting))]
fn ancestor_count(table: &Table, decl: &Decl) -> usize
    ensures { result ≡ length (ancestors table.now decl.now) }
{
    match &decl.parent {
        Ty::Nominal(name, _) => {
            if *name < table.count() {
                return table.line(*name).len();
            }
            0
        }
        _ => 0,
    }
}

/// Whether there would be more than 1,024 declared types, 8 parameters, 64 fields or 64 ancestors.
pub fn is_too_many(table: &Table, decl: &Decl) -> bool
    ensures { IsTrue result ↔ TooMany table.now decl.now }
{
    table.count() >= MOST_TYPES
        || decl.params.len() > MOST_TYPE_PARAMETERS
        || decl.fields.len() > MOST_FIELDS
        || ancestor_count(table, decl) > MOST_ANCESTORS
}
