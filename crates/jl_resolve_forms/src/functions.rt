//! What a called name is.

ghost use Rattle.std.specs.Prelude.{◌≡◌, map, List, ℕ};
ghost use Rattle.jl_model.specs.declared.ty.Decl.{Decl};
ghost use Rattle.jl_program.specs.Prelude.{prelude_functions};
ghost use Rattle.jl_written.specs.Meaning.{place_of};
ghost use Rattle.jl_resolve_forms.specs.Functions.{function_of_operator, place_of_callee, unless_taken, function_of, own_function, if_struct, struct_named, struct_of, constructor, callee_of};

use crate::known::{Called, Known};
use crate::scopes::slot_of;
use crate::state::Scope;
use jl_grammar::tree::{Callee, Name};
use jl_model::builtin::BUILTIN_TYPES;
use jl_model::ty::{Decl, DeclKind};
use jl_names::decls::DeclList;
use jl_names::list::NameList;
use jl_program::prelude::{
    DIV, EQUAL, GREATER, GREATER_EQUAL, LESS, LESS_EQUAL, MINUS, NOT, NOT_EQUAL, PLUS, REM, TIMES,
    function_names,
};
use jl_token::token::Operator;
use jl_written::names::is_same;

/// The prelude's function of an operator; `÷` is `div` and `%` is `rem`.
fn function_of_operator(operator: Operator) -> Option<u32>
    ensures { result ≡ function_of_operator operator }
{
    match operator {
        Operator::Plus => Some(PLUS),
        Operator::Minus => Some(MINUS),
        Operator::Times => Some(TIMES),
        Operator::Divide => Some(DIV),
        Operator::Remainder => Some(REM),
        Operator::Equal => Some(EQUAL),
        Operator::NotEqual => Some(NOT_EQUAL),
        Operator::Less => Some(LESS),
        Operator::LessEqual => Some(LESS_EQUAL),
        Operator::Greater => Some(GREATER),
        Operator::GreaterEqual => Some(GREATER_EQUAL),
        Operator::Not => Some(NOT),
        _ => None,
    }
}

/// Where the name of a function stands; of an operator, where its `Base` does.
pub fn place_of_callee(callee: &Callee) -> u32
    ensures { result ≡ place_of_callee callee.now }
{
    match callee {
        Callee::Plain(name) => name.at,
        Callee::Base(_, name) => name.at,
        Callee::Operator(at, _) => *at,
    }
}

/// The place of a name in a list of names.
#[tactic(auto, using(jl_written::proofs::PlaceLemmas::place_is))]
fn place_of(names: &NameList, name: &[u8]) -> Option<u32>
    ensures { result ≡ place_of names.now name.now }
{
    names.find(name)
}

/// The place of a name among words.
fn place_of_word(words: &[&str], name: &[u8]) -> Option<usize>
    ensures { result ≡ place_of (map (λ w. w.now) words.now) name.now }
{
    for (at, known) in words.iter().enumerate() {
        if is_same(name, known.as_bytes()) {
            return Some(at);
        }
    }
    None
}

/// The prelude's function of a name.
fn prelude_function(name: &[u8]) -> Option<u32>
    ensures { result ≡ place_of prelude_functions name.now }
{
    let words = function_names();
    let place = place_of_word(words.as_slice(), name)?;
    Some(place as u32)
}

/// The function of a name: one of the script or of the prelude, behind `Base` one of the prelude.
#[tactic(auto, unfolding(crate::specs::Functions::function_of))]
pub fn function_of(known: &Known, callee: &Callee, scope: &Scope) -> Option<u32>
    ensures { result ≡ function_of known.now callee.now scope.now }
{
    match callee {
        Callee::Plain(name) => match slot_of(&scope.slots, name.bytes.as_slice()) {
            None => place_of(&known.functions, name.bytes.as_slice()),
            Some(_) => None,
        },
        Callee::Base(_, name) => prelude_function(name.bytes.as_slice()),
        Callee::Operator(_, operator) => function_of_operator(*operator),
    }
}

/// The function of a name that is none of the prelude.
fn past_prelude(known: &Known, name: &[u8]) -> Option<u32>
    ensures { result
        ≡ unless_taken (place_of prelude_functions name.now) (place_of known.now.functions name.now) }
{
    match prelude_function(name) {
        None => place_of(&known.functions, name),
        Some(_) => None,
    }
}

/// The function of the script of a name: none of the prelude, and no visible variable.
#[tactic(auto, unfolding(crate::specs::Functions::own_function))]
pub fn own_function(known: &Known, name: &Name, scope: &Scope) -> Option<u32>
    ensures { result ≡ own_function known.now name.now scope.now }
{
    match slot_of(&scope.slots, name.bytes.as_slice()) {
        None => past_prelude(known, name.bytes.as_slice()),
        Some(_) => None,
    }
}

/// The first declaration of a name.
#[tactic(auto, using(jl_written::proofs::PlaceLemmas::place_is))]
fn declaration_of(decls: &DeclList, name: &[u8]) -> Option<u32>
    ensures { result ≡ place_of (map (λ (d : Decl). d.name) decls.now) name.now }
{
    decls.find(name)
}

/// A declared struct: a built-in type has no constructor.
fn if_struct(decls: &[Decl], place: Option<u32>) -> Option<u32>
    ensures { result ≡ if_struct decls.now place }
{
    let Some(number) = place else {
        return None;
    };
    if number < BUILTIN_TYPES {
        return None;
    }
    match decls.get(number as usize) {
        None => None,
        Some(decl) => match decl.kind {
            DeclKind::Abstract => None,
            DeclKind::Struct => Some(number),
        },
    }
}

/// The declared struct of a name, unless a variable of that name is visible.
#[tactic(auto, unfolding(crate::specs::Functions::struct_named))]
pub fn struct_named(known: &Known, name: &[u8], scope: &Scope) -> Option<u32>
    ensures { result ≡ struct_named known.now name.now scope.now }
{
    match slot_of(&scope.slots, name) {
        None => {
            let found = declaration_of(known.decls.list(), name);
            if_struct(known.decls.list().as_slice(), found)
        }
        Some(_) => None,
    }
}

fn struct_of(known: &Known, callee: &Callee, scope: &Scope) -> Option<u32>
    ensures { result ≡ struct_of known.now callee.now scope.now }
{
    match callee {
        Callee::Plain(name) => struct_named(known, name.bytes.as_slice(), scope),
        Callee::Base(_, _) => None,
        Callee::Operator(_, _) => None,
    }
}

/// A constructor is explicit where the struct has no parameters, and inferred otherwise.
fn constructor(decls: &[Decl], number: u32) -> Called
    ensures { result ≡ constructor decls.now number }
{
    match decls.get(number as usize) {
        None => Called::Bare(number),
        Some(decl) => {
            if decl.params.len() == 0 {
                Called::Bare(number)
            } else {
                Called::Inferred(number)
            }
        }
    }
}

/// What a called name is.
#[tactic(auto, unfolding(crate::specs::Functions::callee_of))]
pub fn callee_of(known: &Known, callee: &Callee, scope: &Scope) -> Called
    ensures { result ≡ callee_of known.now callee.now scope.now }
{
    match struct_of(known, callee, scope) {
        Some(number) => constructor(known.decls.list().as_slice(), number),
        None => match function_of(known, callee, scope) {
            Some(number) => Called::Function(number),
            None => Called::Unknown,
        },
    }
}
