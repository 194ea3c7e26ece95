//! The declarations of a script that are read so far.

use jl_names::decls::DeclList;
use jl_types::Table;
use jl_written::fault::Fault;

/// The declarations of a script, the built-in ones first: the table of those from the first on that are allowed; all of
/// them, as they are kept where they are allowed, else as they are read, or outlined where they are no terms; and the first
/// fault.
#[derive(Drop)]
pub struct Declarations {
    pub table: Table,
    pub decls: DeclList,
    pub fault: Option<Fault>,
}
