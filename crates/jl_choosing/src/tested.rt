//! Which sites apply to the types of the call that was asked for last.

ghost use Rattle.std.specs.Prelude.{◌≡◌, ℕ, IfOk, IsTrue, List, None, false, get_or, length};
ghost use Rattle.jl_program.specs.Scope.{all_types};
ghost use Rattle.jl_calculus.specs.Definitions.{HasSite, AppliesTo};
ghost use Rattle.jl_match.specs.KeptRow.{AreConcrete};
ghost use Rattle.jl_choosing.specs.Tested.{AreTested};

use crate::choosing::is_applicable;
use jl_calculus::history::Def;
use jl_model::shared::SharedList;
use jl_model::ty::Tys;
use jl_sig::Ready;
use jl_types::same::same_all;
use std::alloc::{AllocError, Global};

/// What each site of a program answered for these types, if it was asked. That a signature applies never changes, so each is asked once
/// as long as the types are the same.
#[derive(Drop)]
pub(crate) struct Tested {
    pub(crate) types: Tys,
    pub(crate) answers: Vec<Option<bool>>,
}

/// No answer for each of so many sites.
fn no_answers(alloc: Global, count: usize) -> Result<Vec<Option<bool>>, AllocError>
    ensures many { IfOk result (λ answers. length answers.items ≡ count) }
    ensures none { IfOk result (λ answers. (site : ℕ) → get_or answers.items site None ≡ None) }
{
    let mut answers = Vec::new(alloc);
    for _ in 0..count {
        answers.push(None)?;
    }
    Ok(answers)
}

/// What a site answered, if it was asked.
fn answer_of(answers: &[Option<bool>], site: u32) -> Option<bool>
    ensures { result ≡ get_or answers.now site None }
{
    match answers.get(site as usize) {
        Some(answer) => *answer,
        None => None,
    }
}

impl Tested {
    /// Nothing was asked yet.
    pub(crate) fn new(alloc: Global, ready: &Ready) -> Result<Tested, AllocError>
        ensures { IfOk result (λ tested. AreTested ready.now tested) }
    {
        let answers = no_answers(alloc, ready.program().sites.len())?;
        Ok(Tested {
            types: SharedList::empty(),
            answers,
        })
    }

    /// Begins anew where other types are asked for.
    pub(crate) fn ask(
        &mut self,
        alloc: Global,
        ready: &Ready,
        types: &Tys,
    ) -> Result<(), AllocError>
        requires { AreTested ready.now self.old }
        ensures tested { AreTested ready.now self.new }
        ensures types { IfOk result (λ _. self.new.types ≡ types.now) }
    {
        if same_all(self.types.as_slice(), types.as_slice()) {
            return Ok(());
        }
        let types = types.copy()?;
        let answers = no_answers(alloc, ready.program().sites.len())?;
        *self = Tested { types, answers };
        Ok(())
    }

    /// Whether a definition's signature applies to the types.
    pub(crate) fn applies(
        &mut self,
        alloc: Global,
        ready: &Ready,
        def: Def,
    ) -> Result<bool, AllocError>
        requires tested { AreTested ready.now self.old }
        requires site { HasSite ready.now def }
        requires types { AreConcrete (all_types ready.now) self.old.types }
        ensures tested { AreTested ready.now self.new }
        ensures types { self.new.types ≡ self.old.types }
        ensures yes { IfOk result (λ yes. IsTrue yes → AppliesTo ready.now self.old.types def) }
        ensures none { IfOk result (λ yes. yes ≡ false → AppliesTo ready.now self.old.types def → ⊥) }
    {
        if let Some(yes) = answer_of(self.answers.as_slice(), def.site) {
            return Ok(yes);
        }
        let yes = is_applicable(alloc, ready, def, self.types.as_slice())?;
        self.answers[def.site as usize] = Some(yes);
        Ok(yes)
    }
}
