//! Why a task ends without a value.

ghost use Rattle.std.specs.Prelude.{◌≡◌, IfOk};

use jl_model::ty::{Bytes, Ty, Tys};
use std::alloc::AllocError;

/// Why a task ended without a value.
#[derive(Drop)]
pub enum Fault {
    /// The function, the types of the arguments and the world.
    NoMethod(u32, Tys, u32),
    /// The function, the types of the arguments and two definitions of which neither is the more specific.
    Ambiguous(u32, Tys, u32, u32),
    NoConstructor(Ty, Tys),
    DivideError,
    FieldType(Ty, Bytes, Ty),
    BadParameter(Ty),
    NoField(Ty, Bytes),
    NoIndex(Ty, u64),
    NotBool(Ty),
    NotTask(Ty),
    TaskFailed(u32),
    /// The function of which no method with the signature of a deletion place stands.
    NoSuchMethod(u32),
    FuelSpent(u64),
    StackLimit,
    WorldLimit,
    TaskLimit,
    TypeLimit,
    ValueLimit,
}

impl Fault {
    /// An equal fault, whose types and names are shared. It takes no memory.
    pub fn copy(&self) -> Result<Fault, AllocError>
        ensures { IfOk result (λ c. c ≡ self.now) }
    {
        match self {
            Fault::NoMethod(function, types, world) => Ok(Fault::NoMethod(
                *function,
                types.copy()?,
                *world,
            )),
            Fault::Ambiguous(function, types, one, other) => Ok(Fault::Ambiguous(
                *function,
                types.copy()?,
                *one,
                *other,
            )),
            Fault::NoConstructor(ty, types) => Ok(Fault::NoConstructor(ty.copy()?, types.copy()?)),
            Fault::DivideError => Ok(Fault::DivideError),
            Fault::FieldType(ty, name, got) => Ok(Fault::FieldType(
                ty.copy()?,
                name.copy()?,
                got.copy()?,
            )),
            Fault::BadParameter(ty) => Ok(Fault::BadParameter(ty.copy()?)),
            Fault::NoField(ty, name) => Ok(Fault::NoField(ty.copy()?, name.copy()?)),
            Fault::NoIndex(ty, number) => Ok(Fault::NoIndex(ty.copy()?, *number)),
            Fault::NotBool(ty) => Ok(Fault::NotBool(ty.copy()?)),
            Fault::NotTask(ty) => Ok(Fault::NotTask(ty.copy()?)),
            Fault::TaskFailed(task) => Ok(Fault::TaskFailed(*task)),
            Fault::NoSuchMethod(function) => Ok(Fault::NoSuchMethod(*function)),
            Fault::FuelSpent(fuel) => Ok(Fault::FuelSpent(*fuel)),
            Fault::StackLimit => Ok(Fault::StackLimit),
            Fault::WorldLimit => Ok(Fault::WorldLimit),
            Fault::TaskLimit => Ok(Fault::TaskLimit),
            Fault::TypeLimit => Ok(Fault::TypeLimit),
            Fault::ValueLimit => Ok(Fault::ValueLimit),
        }
    }
}
