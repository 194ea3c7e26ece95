//! The built-in nominal types by their numbers (Julia manual, Types). Declared types have the numbers after them.

pub const NUMBER: u32 = 0;

pub const REAL: u32 = 1;

pub const INTEGER: u32 = 2;

pub const SIGNED: u32 = 3;

pub const INT64: u32 = 4;

pub const BOOL: u32 = 5;

pub const NOTHING: u32 = 6;

pub const TASK: u32 = 7;
/// How many they are, and the number of the first type that a script declares.
pub const BUILTIN_TYPES: u32 = 8;
