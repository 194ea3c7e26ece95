//! What a task has prepared of the written types that it met: a written type has one signature at all times, and the type of an
//! explicit constructor one normal form.

ghost use Rattle.std.specs.Prelude.{◌≡◌, IfOk, MatchOption, map};
ghost use Rattle.jl_program.specs.Meaning.{datum};
ghost use Rattle.jl_program.specs.Scope.{all_types};
ghost use Rattle.jl_program.specs.ValidValue.{AllValid};
ghost use Rattle.jl_calculus.specs.Operations.{make_written, test_order, test_type};
ghost use Rattle.jl_calculus.specs.Statics.{with_statics};
ghost use Rattle.jl_calculus.specs.ValidHistory.{IsValidOutcome, IsValidValue};
ghost use Rattle.jl_operations.specs.Bodies.{IsBodySig, IsKeptAs};
ghost use Rattle.jl_operations.specs.Conditions.{IsMadeIn, IsWrittenIn};
ghost use Rattle.jl_operations.specs.Constructed.{IsOneConstructed, made_of};
ghost use Rattle.jl_operations.specs.Memo.{IsFormed, IsOf, IsRight};

use crate::explicit::make_kept;
use crate::prepared::{Prepared, find, keep_prepared};
use crate::questions::{order_kept, type_kept};
use crate::statics::with_statics;
use crate::structs::make_struct;
use crate::written::{Kept, keep};
use jl_calculus::history::Outcome;
use jl_model::ty::{Ty, Written};
use jl_norm::{NormFault, norm};
use jl_program::value::Value;
use jl_sig::Ready;
use jl_types::Table;
use std::alloc::{AllocError, Global};
use std::marker::Model;
use std::snapshot::Snapshot;

/// What was prepared of written types, for the types of one program, which contracts see. It takes no memory until something is
/// prepared, and keeps a bounded number of types: one that was dropped is prepared again.
#[derive(Drop)]
pub struct Memo {
    types: Snapshot<Table>,
    table: Vec<Option<Prepared>>,
}

impl Model for Memo {
    ghost use Rattle.std.specs.Prelude.{List};
    ghost use Rattle.std.specs.Coded.{coded_list};
    ghost use Rattle.jl_model.specs.contracts.ty.Decl as e;
    ghost use Rattle.jl_model.specs.declared.ty.Decl.{Decl};
    ghost use Rattle.jl_operations.specs.Memo.{AreRight};

    ghost Value = { List Decl };

    ghost coded = { coded_list e.the_row.coded };

    ghost view = { λ m. m.types.value };

    ghost invariant = { λ m. AreRight m.types.value m.table.items };
}

/// The normal form of the type of an explicit constructor, of which this was kept, if it has one.
fn form_of(
    alloc: Global,
    table: &Table,
    written: &Written,
    kept: &Kept,
) -> Result<Option<Ty>, AllocError>
    requires body { IsBodySig table.now written.now }
    requires kept { IsKeptAs table.now written.now kept.now }
    requires parts { IsOneConstructed table.now written.now.parts }
    ensures { IfOk result (λ form. MatchOption form (Unit {0}) (λ u. IsFormed table.now written.now u)) }
{
    table.valid();
    match kept.sig() {
        Some(_) => match norm(alloc, table, &written.parts.as_slice()[0]) {
            Ok(form) => Ok(Some(form)),
            Err(NormFault::TypeLimit) => Ok(None),
            Err(NormFault::Memory) => Err(AllocError),
        },
        None => Ok(None),
    }
}

impl Memo {
    /// A memo for the types of a program, in which nothing is prepared.
    pub fn new(alloc: Global, types: &Table) -> Memo
        ensures { result ≡ types.now }
    {
        Memo {
            types: Snapshot::of(types),
            table: Vec::new(alloc),
        }
    }

    /// What is prepared of a written type.
    fn find(&self, written: &Written) -> Option<&Prepared>
        ensures { MatchOption result (Unit {0}) (λ found. IsOf self.now written.now found.now) }
    {
        match find(&self.table, written) {
            Some(found) => Some(found),
            None => None,
        }
    }

    /// Keeps what is prepared.
    fn keep(&mut self, alloc: Global, prepared: Prepared)
        requires { IsRight self.old prepared }
        ensures { self.new ≡ self.old }
    {
        keep_prepared(alloc, &mut self.table, prepared);
    }

    /// The normal form of the type of an explicit constructor.
    fn find_form(&self, written: &Written) -> Option<&Ty>
        ensures { MatchOption result (Unit {0}) (λ form. IsFormed self.now written.now form.now) }
    {
        match self.find(written) {
            Some(prepared) => match &prepared.form {
                Some(form) => Some(form),
                None => None,
            },
            None => None,
        }
    }

    /// What becomes of a written type of a body, with the static parameters put in, which is not prepared yet.
    fn prepare_new(
        &mut self,
        alloc: Global,
        table: &Table,
        written: &Written,
    ) -> Result<Kept, AllocError>
        requires types { self.old ≡ table.now }
        requires body { IsBodySig table.now written.now }
        ensures kept { IfOk result (λ kept. IsKeptAs table.now written.now kept) }
        ensures types { self.new ≡ self.old }
    {
        let kept = keep(alloc, table, written)?;
        let written = written.copy()?;
        let copy = kept.copy()?;
        self.keep(
            alloc,
            Prepared {
                written,
                kept: copy,
                form: None,
            },
        );
        Ok(kept)
    }

    /// What becomes of a written type of a body, with the static parameters put in.
    fn prepare(
        &mut self,
        alloc: Global,
        table: &Table,
        written: &Written,
    ) -> Result<Kept, AllocError>
        requires types { self.old ≡ table.now }
        requires body { IsBodySig table.now written.now }
        ensures kept { IfOk result (λ kept. IsKeptAs table.now written.now kept) }
        ensures types { self.new ≡ self.old }
    {
        match self.find(written) {
            Some(prepared) => prepared.kept.copy(),
            None => self.prepare_new(alloc, table, written),
        }
    }

    /// `value isa written`, which is not prepared as it is written.
    #[inline(never)]
    fn test_new_type(
        &mut self,
        alloc: Global,
        ready: &Ready,
        statics: &[Ty],
        value: &Value,
        written: &Written,
    ) -> Result<Outcome, AllocError>
        requires types { self.old ≡ all_types ready.now }
        requires written { IsWrittenIn ready.now statics.now written.now }
        requires value { IsValidValue ready.now value.now }
        ensures answer { IfOk result (λ o. test_type (all_types ready.now) statics.now value.now written.now o) }
        ensures valid { IfOk result (λ o. IsValidOutcome ready.now o) }
        ensures types { self.new ≡ self.old }
    {
        let put = with_statics(alloc, statics, written)?;
        let kept = self.prepare(alloc, ready.table(), &put)?;
        type_kept(alloc, ready, value, &put, &kept)
    }

    /// `value isa written`, with these types for the static parameters. It answers `TypeLimit` where the type with these is too large,
    /// and else `BadParameter` where it breaks a declared bound.
    pub fn test_type(
        &mut self,
        alloc: Global,
        ready: &Ready,
        statics: &[Ty],
        value: &Value,
        written: &Written,
    ) -> Result<Outcome, AllocError>
        requires types { self.old ≡ all_types ready.now }
        requires written { IsWrittenIn ready.now statics.now written.now }
        requires value { IsValidValue ready.now value.now }
        ensures answer { IfOk result (λ o. test_type (all_types ready.now) statics.now value.now written.now o) }
        ensures valid { IfOk result (λ o. IsValidOutcome ready.now o) }
        ensures types { self.new ≡ self.old }
    {
        match self.find(written) {
            Some(prepared) => type_kept(alloc, ready, value, written, &prepared.kept),
            None => self.test_new_type(alloc, ready, statics, value, written),
        }
    }

    /// `left <: right`, of which one is not prepared as it is written.
    #[inline(never)]
    fn test_new_order(
        &mut self,
        alloc: Global,
        ready: &Ready,
        statics: &[Ty],
        left: &Written,
        right: &Written,
    ) -> Result<Outcome, AllocError>
        requires types { self.old ≡ all_types ready.now }
        requires left { IsWrittenIn ready.now statics.now left.now }
        requires right { IsWrittenIn ready.now statics.now right.now }
        ensures answer { IfOk result (λ o. test_order (all_types ready.now) statics.now left.now right.now o) }
        ensures valid { IfOk result (λ o. IsValidOutcome ready.now o) }
        ensures types { self.new ≡ self.old }
    {
        let left = with_statics(alloc, statics, left)?;
        let right = with_statics(alloc, statics, right)?;
        let left_kept = self.prepare(alloc, ready.table(), &left)?;
        let right_kept = self.prepare(alloc, ready.table(), &right)?;
        order_kept(alloc, ready, &left, &left_kept, &right, &right_kept)
    }

    /// `left <: right`, with these types for the static parameters. It answers `TypeLimit` where one of the types with these is too
    /// large, and else `BadParameter` where one breaks a declared bound, the left one first.
    pub fn test_order(
        &mut self,
        alloc: Global,
        ready: &Ready,
        statics: &[Ty],
        left: &Written,
        right: &Written,
    ) -> Result<Outcome, AllocError>
        requires types { self.old ≡ all_types ready.now }
        requires left { IsWrittenIn ready.now statics.now left.now }
        requires right { IsWrittenIn ready.now statics.now right.now }
        ensures answer { IfOk result (λ o. test_order (all_types ready.now) statics.now left.now right.now o) }
        ensures valid { IfOk result (λ o. IsValidOutcome ready.now o) }
        ensures types { self.new ≡ self.old }
    {
        match self.find(left) {
            Some(below) => match self.find(right) {
                Some(above) => order_kept(alloc, ready, left, &below.kept, right, &above.kept),
                None => self.test_new_order(alloc, ready, statics, left, right),
            },
            None => self.test_new_order(alloc, ready, statics, left, right),
        }
    }

    /// Keeps the normal form of the type of an explicit constructor, if it has one.
    fn keep_form(
        &mut self,
        alloc: Global,
        table: &Table,
        written: &Written,
        kept: &Kept,
    ) -> Result<(), AllocError>
        requires types { self.old ≡ table.now }
        requires body { IsBodySig table.now written.now }
        requires kept { IsKeptAs table.now written.now kept.now }
        requires parts { IsOneConstructed table.now written.now.parts }
        ensures types { self.new ≡ self.old }
    {
        let form = form_of(alloc, table, written, kept)?;
        let written = written.copy()?;
        let kept = kept.copy()?;
        self.keep(
            alloc,
            Prepared {
                written,
                kept,
                form,
            },
        );
        Ok(())
    }

    /// A struct of a written type with the static parameters put in, whose normal form is not prepared yet.
    fn make_new(
        &mut self,
        alloc: Global,
        ready: &Ready,
        written: &Written,
        values: &[Value],
    ) -> Result<Outcome, AllocError>
        requires types { self.old ≡ all_types ready.now }
        requires body { IsBodySig (all_types ready.now) written.now }
        requires parts { IsOneConstructed (all_types ready.now) written.now.parts }
        requires values { AllValid (all_types ready.now) (map datum values.now) }
        ensures answer { IfOk result (λ o. made_of (all_types ready.now) written.now values.now o) }
        ensures valid { IfOk result (λ o. IsValidOutcome ready.now o) }
        ensures types { self.new ≡ self.old }
    {
        let kept = keep(alloc, ready.table(), written)?;
        self.keep_form(alloc, ready.table(), written, &kept)?;
        make_kept(alloc, ready, written, &kept, values)
    }

    /// `written(values..)`, which is not prepared as it is written.
    #[inline(never)]
    fn make_new_written(
        &mut self,
        alloc: Global,
        ready: &Ready,
        statics: &[Ty],
        written: &Written,
        values: &[Value],
    ) -> Result<Outcome, AllocError>
        requires types { self.old ≡ all_types ready.now }
        requires written { IsMadeIn ready.now statics.now written.now }
        requires values { AllValid (all_types ready.now) (map datum values.now) }
        ensures answer { IfOk result (λ o. make_written (all_types ready.now) statics.now written.now values.now o) }
        ensures valid { IfOk result (λ o. IsValidOutcome ready.now o) }
        ensures types { self.new ≡ self.old }
    {
        ready.valid();
        let put = with_statics(alloc, statics, written)?;
        match self.find_form(&put) {
            Some(form) => make_struct(alloc, ready, form, values),
            None => self.make_new(alloc, ready, &put, values),
        }
    }

    /// `written(values..)`, an explicit constructor, with these types for the static parameters. The struct's type is the normal form of
    /// the written type. It answers `TypeLimit` where the type with these is too large, else `BadParameter` where it breaks a declared
    /// bound, else `TypeLimit` where it has no normal form within the limits, and else what `make_struct` does.
    pub fn make_written(
        &mut self,
        alloc: Global,
        ready: &Ready,
        statics: &[Ty],
        written: &Written,
        values: &[Value],
    ) -> Result<Outcome, AllocError>
        requires types { self.old ≡ all_types ready.now }
        requires written { IsMadeIn ready.now statics.now written.now }
        requires values { AllValid (all_types ready.now) (map datum values.now) }
        ensures answer { IfOk result (λ o. make_written (all_types ready.now) statics.now written.now values.now o) }
        ensures valid { IfOk result (λ o. IsValidOutcome ready.now o) }
        ensures types { self.new ≡ self.old }
    {
        ready.valid();
        match self.find_form(written) {
            Some(form) => make_struct(alloc, ready, form, values),
            None => self.make_new_written(alloc, ready, statics, written, values),
        }
    }
}
