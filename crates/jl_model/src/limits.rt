//! The limits of the language, each in this place alone. Code and definitions cite them by name.

/// The bytes of a source.
pub const MOST_SOURCE_BYTES: usize = 1_048_576;
/// The definition sites of a script, beside those of the prelude.
pub const MOST_SITES: usize = 4_096;
/// The depth of an item of a script.
pub const MOST_ITEM_DEPTH: u32 = 500;
/// The depth of a written type that is read alone.
pub const MOST_TYPE_DEPTH: u32 = 1_100;
/// The types that a script declares.
pub const MOST_DECLARED_TYPES: usize = 1_024;
/// The parameters of a declared type.
pub const MOST_TYPE_PARAMETERS: usize = 8;
/// The fields of a struct.
pub const MOST_FIELDS: usize = 64;
/// The ancestors of a type, `Any` not among them.
pub const MOST_ANCESTORS: usize = 64;
/// The parameters of a method, and the arguments of a counted call.
pub const MOST_ARGUMENTS: usize = 8;
/// The nodes of a type, and of its normal form.
pub const MOST_TYPE_NODES: u64 = 1_024;
/// The raw alternatives of any part of a type.
pub const MOST_ALTERNATIVES: u64 = 256;
/// The rows of a signature.
pub const MOST_SIGNATURE_ROWS: u64 = 256;
/// The nodes of a value.
pub const MOST_VALUE_NODES: u64 = 1_000_000;
/// The depth of a value.
pub const MOST_VALUE_DEPTH: u64 = 2_000;
/// The worlds of a run, the prelude's among them.
pub const MOST_WORLDS: usize = 65_535;
/// The tasks of a run, the root among them.
pub const MOST_TASKS: usize = 4_096;
/// The calls of a task that may be open at once.
pub const MOST_OPEN_CALLS: u32 = 100_000;
/// The calls that each task may make.
pub const MOST_FUEL: u64 = 1_000_000_000;
/// The calls that each task may make where no word says how many.
pub const DEFAULT_FUEL: u64 = 10_000_000;
/// The keys of the cache of choices.
pub const MOST_CACHE_KEYS: usize = 8_192;
/// The rows of the cache of choices.
pub const MOST_CACHE_ROWS: usize = 16_384;
/// The workers of a run.
pub const MOST_THREADS: u32 = 64;
/// The workers of a run where no word says how many.
pub const DEFAULT_THREADS: u32 = 4;
