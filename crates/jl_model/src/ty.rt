//! Types as terms, and what declarations and signatures are made of.

ghost use Rattle.std.specs.Prelude.{◌≡◌, IfOk};

use crate::rows::Share;
use crate::shared::SharedList;
use std::alloc::AllocError;

/// A list of bytes: a name or a text.
pub type Bytes = SharedList<u8>;
/// A list of types.
pub type Tys = SharedList<Ty>;
/// A list of bounds, one for each variable.
pub type Bounds = SharedList<Bound>;
/// The fields of a struct, in order.
pub type Fields = SharedList<Field>;
/// Declarations, in the order of the text.
pub type Decls = SharedList<Decl>;

/// A type. A nominal type has its number and its arguments; a variable has its number in the declaration or signature
/// that it stands in (Julia manual, Types).
#[derive(Drop, PartialEq, Eq, Hash)]
pub enum Ty {
    Any,
    Union(Tys),
    Tuple(Tys),
    Nominal(u32, Tys),
    Var(u32),
}

/// The bounds of a variable: `low <: T <: high`.
#[derive(Drop, PartialEq, Eq, Hash)]
pub struct Bound {
    pub low: Ty,
    pub high: Ty,
}

/// A field of a struct.
#[derive(Drop, PartialEq, Eq)]
pub struct Field {
    pub name: Bytes,
    pub ty: Ty,
}

/// What a declaration makes.
#[derive(Clone, Copy, PartialEq, Eq, Debug)]
pub enum DeclKind {
    Abstract,
    Struct,
}

/// A declared nominal type. Variable i in it is its parameter i.
#[derive(Drop, PartialEq, Eq)]
pub struct Decl {
    pub name: Bytes,
    pub kind: DeclKind,
    pub params: Bounds,
    pub parent: Ty,
    pub fields: Fields,
}

/// A signature with its names resolved: the bounds of its variables, and a type for each parameter.
#[derive(Drop, PartialEq, Eq, Hash)]
pub struct Written {
    pub vars: Bounds,
    pub parts: Tys,
}

/// What a method is looked up by: a function's number and the types of the arguments.
#[derive(Drop, PartialEq, Eq, Hash)]
pub struct Key {
    pub function: u32,
    pub types: Tys,
}

impl Ty {
    /// An equal type, whose parts are shared. It takes no memory.
    pub fn copy(&self) -> Result<Ty, AllocError>
        ensures { IfOk result (λ c. c ≡ self.now) }
    {
        match self {
            Ty::Any => Ok(Ty::Any),
            Ty::Union(members) => Ok(Ty::Union(members.copy()?)),
            Ty::Tuple(parts) => Ok(Ty::Tuple(parts.copy()?)),
            Ty::Nominal(name, arguments) => Ok(Ty::Nominal(*name, arguments.copy()?)),
            Ty::Var(number) => Ok(Ty::Var(*number)),
        }
    }
}

impl Share for Ty {
    fn share(&self) -> Result<Ty, AllocError> {
        self.copy()
    }
}

impl Written {
    /// An equal signature, whose parts are shared.
    pub fn copy(&self) -> Result<Written, AllocError>
        ensures { IfOk result (λ c. c ≡ self.now) }
    {
        Ok(Written {
            vars: self.vars.copy()?,
            parts: self.parts.copy()?,
        })
    }
}

impl Key {
    /// An equal key, whose types are shared.
    pub fn copy(&self) -> Result<Key, AllocError>
        ensures { IfOk result (λ c. c ≡ self.now) }
    {
        Ok(Key {
            function: self.function,
            types: self.types.copy()?,
        })
    }
}
