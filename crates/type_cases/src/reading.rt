//! Types as they are written, one after another: a name before its arguments in braces.
//!
//! Blanks, commas and parentheses only separate. `N*T` is N times T, and `#N` is the variable and `@N` the
//! nominal type of that number. A name that nothing has is an unknown type.

use jl_model::ty::{Ty, Tys};
use jl_types::Table;
use std::alloc::{AllocError, Global};
use std::{mem, str};

/// The most times that one type is repeated.
const MOST: u32 = 10_000;

/// A variable as it is written, with its bounds.
#[derive(Clone, Copy, Drop)]
pub struct VarText<'a> {
    pub name: &'a str,
    pub low: &'a str,
    pub high: &'a str,
}

/// What names mean: variables, the types of a table, and a type that is being declared.
#[derive(Clone, Copy, Drop)]
pub struct Scope<'a> {
    pub table: &'a Table,
    pub own: &'a str,
    pub vars: &'a [VarText<'a>],
}

impl<'a> Scope<'a> {
    /// The variable of a name.
    fn variable(&self, name: &str) -> Option<u32> {
        for (i, var) in self.vars.iter().enumerate() {
            if var.name == name {
                return u32::try_from(i).ok();
            }
        }
        None
    }

    /// The number of the type of a name. The type that is being declared has the next number.
    pub fn number(&self, name: &str) -> u32 {
        let count = self.table.count();
        for number in 0..count {
            if self.table.decl(number).name.as_slice() == name.as_bytes() {
                return number;
            }
        }
        if name == self.own {
            return count;
        }
        u32::MAX
    }

    /// The type with this name and these arguments.
    fn named(&self, name: &str, parts: Tys) -> Ty {
        if let Some(number) = name.strip_prefix("#") {
            return Ty::Var(number.parse::<u32>().unwrap_or(u32::MAX));
        }
        if let Some(number) = name.strip_prefix("@") {
            return Ty::Nominal(number.parse::<u32>().unwrap_or(u32::MAX), parts);
        }
        if let Some(variable) = self.variable(name) {
            return Ty::Var(variable);
        }
        match name {
            "Any" => Ty::Any,
            "Union" => Ty::Union(parts),
            "Tuple" => Ty::Tuple(parts),
            _ => Ty::Nominal(self.number(name), parts),
        }
    }
}

/// A name whose arguments are being read, and how many types stood before them.
#[derive(Drop)]
struct Open {
    name: Vec<u8>,
    from: usize,
}

/// The types that are read so far, the open braces, and the name that is being read.
#[derive(Drop)]
struct Reader<'a> {
    scope: Scope<'a>,
    types: Vec<Ty>,
    open: Vec<Open>,
    word: Vec<u8>,
}

impl<'a> Reader<'a> {
    /// Adds so many copies of a type.
    fn push_copies(&mut self, ty: &Ty, count: u32) -> Result<(), AllocError> {
        for _ in 0..count {
            self.types.push(ty.copy()?)?;
        }
        Ok(())
    }

    /// Adds a type as often as its name says.
    fn push(&mut self, word: &[u8], parts: Tys) -> Result<(), AllocError> {
        let text = str::from_utf8(word).unwrap_or("");
        let (count, name) = text.split_once('*').unwrap_or(("1", text));
        let ty = self.scope.named(name, parts);
        let pushed = self.push_copies(&ty, count.parse::<u32>().unwrap_or(1).min(MOST));
        drop(ty);
        pushed
    }

    /// Takes the name that was read.
    fn take_word(&mut self, alloc: Global) -> Vec<u8> {
        mem::replace(&mut self.word, Vec::new(alloc))
    }

    /// Ends a name without arguments, where one was read.
    fn end_word(&mut self, alloc: Global) -> Result<(), AllocError> {
        if self.word.is_empty() {
            return Ok(());
        }
        let word = self.take_word(alloc);
        self.push(word.as_slice(), Tys::empty())
    }

    /// Begins the arguments of the name that was read.
    fn begin(&mut self, alloc: Global) -> Result<(), AllocError> {
        let name = self.take_word(alloc);
        let from = self.types.len();
        self.open.push(Open { name, from })?;
        Ok(())
    }

    /// Ends arguments.
    fn end(&mut self, alloc: Global) -> Result<(), AllocError> {
        self.end_word(alloc)?;
        let Some(open) = self.open.pop() else {
            return Ok(());
        };
        let from = open.from.min(self.types.len());
        let parts = Tys::from_vec(alloc, self.types.split_off(from)?)?;
        self.push(open.name.as_slice(), parts)
    }

    /// Takes a text to its end.
    fn take_all(&mut self, alloc: Global, text: &str) -> Result<(), AllocError> {
        for byte in text.as_bytes() {
            self.take(alloc, *byte)?;
        }
        self.end_word(alloc)
    }

    /// Takes a character.
    fn take(&mut self, alloc: Global, byte: u8) -> Result<(), AllocError> {
        match byte {
            b' ' | b',' | b'(' | b')' => self.end_word(alloc),
            b'{' => self.begin(alloc),
            b'}' => self.end(alloc),
            byte => {
                self.word.push(byte)?;
                Ok(())
            }
        }
    }
}

/// The types that are written so.
pub fn read_types(alloc: Global, scope: Scope, text: &str) -> Result<Vec<Ty>, AllocError> {
    let mut reader = Reader {
        scope,
        types: Vec::new(alloc),
        open: Vec::new(alloc),
        word: Vec::new(alloc),
    };
    match reader.take_all(alloc, text) {
        Ok(()) => Ok(reader.types),
        Err(error) => {
            drop(reader);
            Err(error)
        }
    }
}

/// The last type that is written so; `Any` where there is none.
pub fn read_type(alloc: Global, scope: Scope, text: &str) -> Result<Ty, AllocError> {
    let mut types = read_types(alloc, scope, text)?;
    Ok(types.pop().unwrap_or(Ty::Any))
}
