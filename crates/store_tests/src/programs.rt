//! The programs of the tests. They are made here, and not read, so that no test of the book waits for the reader.

ghost use Rattle.std.specs.Prelude.{◌≡◌, ◌++◌, ◌∷◌, [], map, IfOk};
ghost use Rattle.jl_model.specs.Ancestors.{named};
ghost use Rattle.jl_program.specs.declared.tree.Expr.TheViews as X;
ghost use Rattle.jl_program.specs.Prelude.{prelude_functions, prelude_sites, shape_types, plain};
ghost use Rattle.store_tests.specs.Programs.{site_of, place_of, shown, late, late_with, late_sites, late_top, deleted, crossed, crossed_sites, crossed_top, child};

use crate::making::{one, pair, push, text};
use jl_model::builtin::{BOOL, INT64};
use jl_model::shared::{SharedList, SharedNode};
use jl_model::ty::{Bytes, Ty, Tys, Written};
use jl_program::prelude::{PRELUDE_FUNCTIONS, Shape, function_names, operations};
use jl_program::tree::{
    Delete, Deletes, Expr, Exprs, Item, Items, Names, Piece, Program, Site, Sites,
};
use jl_sig::Ready;
use std::alloc::{AllocError, Global};

/// The number of the function that a script defines first.
pub(crate) const F: u32 = PRELUDE_FUNCTIONS;
/// How many calls a task may make.
pub(crate) const FUEL: u64 = 100;
/// The number of the second.
pub(crate) const LATE: u32 = F + 1;

fn named(number: u32) -> Ty
    ensures { result ≡ named number }
{
    Ty::Nominal(number, SharedList::empty())
}

fn make_types(alloc: Global, shape: Shape) -> Result<Tys, AllocError>
    ensures { IfOk result (λ types. types ≡ shape_types shape) }
{
    match shape {
        Shape::Integer => one(alloc, named(INT64)),
        Shape::Integers => pair(alloc, named(INT64), named(INT64)),
        Shape::Truth => one(alloc, named(BOOL)),
        Shape::Truths => pair(alloc, named(BOOL), named(BOOL)),
    }
}

/// A signature without variables.
fn plain(types: Tys) -> Written
    ensures { result ≡ plain types }
{
    Written {
        vars: SharedList::empty(),
        parts: types,
    }
}

/// One more definition, of a function for parameters of these types.
fn push_site(
    sites: Vec<Site>,
    function: u32,
    types: Tys,
    body: Expr,
) -> Result<Vec<Site>, AllocError>
    ensures { IfOk result (λ all. all.items ≡ sites.items ++ site_of function types body ∷ []) }
{
    let sig = plain(types);
    push(
        sites,
        Site {
            function,
            sig,
            body,
        },
    )
}

/// One deletion place, of the first function for parameters of these types.
fn make_delete(alloc: Global, types: Tys) -> Result<Deletes, AllocError>
    ensures { IfOk result (λ places. places ≡ place_of 12 types ∷ []) }
{
    let sig = plain(types);
    one(alloc, Delete { function: F, sig })
}

/// The definitions of the prelude.
fn make_prelude(alloc: Global) -> Result<Vec<Site>, AllocError>
    ensures { IfOk result (λ sites. sites.items ≡ prelude_sites) }
{
    let rows = operations();
    let mut sites = Vec::new(alloc);
    for (_, function, shape) in rows.as_slice() {
        let types = make_types(alloc, *shape)?;
        sites = push_site(sites, *function, types, Expr::Nothing)?;
    }
    Ok(sites)
}

fn push_names(alloc: Global, names: &mut Vec<Bytes>, words: &[&str]) -> Result<(), AllocError>
    ensures { IfOk result (λ _. names.new.items ≡ names.old.items ++ map (λ w. w.now) words.now) }
{
    for word in words {
        let name = text(alloc, word)?;
        names.push(name)?;
    }
    Ok(())
}

/// The names of the prelude's functions, and those of a script's own.
fn make_names(alloc: Global, own: &[&str]) -> Result<Names, AllocError>
    ensures { IfOk result (λ names. names ≡ prelude_functions ++ map (λ w. w.now) own.now) }
{
    let words = function_names();
    let mut names = Vec::new(alloc);
    push_names(alloc, &mut names, words.as_slice())?;
    push_names(alloc, &mut names, own)?;
    Names::from_vec(alloc, names)
}

/// A program that declares no types.
fn make_program(
    functions: Names,
    sites: Sites,
    spawns: Exprs,
    deletes: Deletes,
    top: Items,
) -> Program
    ensures { result ≡ record { decls = []; functions = functions; sites = sites; spawns = spawns; deletes = deletes; top = top } }
{
    Program {
        decls: SharedList::empty(),
        functions,
        sites,
        spawns,
        deletes,
        top,
    }
}

/// A call without arguments.
fn call(function: u32) -> Expr
    ensures { result ≡ X.Call function [] }
{
    Expr::Call(function, Exprs::empty())
}

/// One more statement, the `println` of an expression.
fn push_shown(alloc: Global, top: Vec<Item>, expr: Expr) -> Result<Vec<Item>, AllocError>
    ensures { IfOk result (λ all. all.items ≡ top.items ++ shown expr ∷ []) }
{
    let pieces = one(alloc, Piece::Show(expr))?;
    push(top, Item::Do(Expr::Print(pieces, true)))
}

fn make_late_sites(alloc: Global) -> Result<Sites, AllocError>
    ensures { IfOk result (λ sites. sites ≡ prelude_sites ++ late_sites) }
{
    let sites = make_prelude(alloc)?;
    let sites = push_site(sites, F, Tys::empty(), Expr::Int(1))?;
    let sites = push_site(sites, LATE, Tys::empty(), call(F))?;
    let sites = push_site(sites, F, Tys::empty(), Expr::Int(2))?;
    Sites::from_vec(alloc, sites)
}

fn make_late_top(alloc: Global) -> Result<Items, AllocError>
    ensures { IfOk result (λ top. top ≡ late_top) }
{
    let task = SharedNode::new(alloc, Expr::Local(0))?;
    let top = push(Vec::new(alloc), Item::Define(14))?;
    let top = push(top, Item::Define(15))?;
    let top = push(top, Item::Bind(0, Expr::Spawn(0)))?;
    let top = push(top, Item::Define(16))?;
    let top = push_shown(alloc, top, Expr::Fetch(task))?;
    let top = push_shown(alloc, top, call(F))?;
    Items::from_vec(alloc, top)
}

/// A task runs in the world that spawned it, and its function is defined again.
fn make_late_with(alloc: Global, deletes: Deletes) -> Result<Program, AllocError>
    ensures { IfOk result (λ P. P ≡ late_with deletes) }
{
    let names = make_names(alloc, &["f", "late"])?;
    let sites = make_late_sites(alloc)?;
    let spawns = one(alloc, call(LATE))?;
    let top = make_late_top(alloc)?;
    Ok(make_program(names, sites, spawns, deletes, top))
}

pub(crate) fn make_late(alloc: Global) -> Result<Program, AllocError>
    ensures { IfOk result (λ P. P ≡ late) }
{
    make_late_with(alloc, Deletes::empty())
}

fn make_crossed_sites(alloc: Global) -> Result<Sites, AllocError>
    ensures { IfOk result (λ sites. sites ≡ prelude_sites ++ crossed_sites) }
{
    let sites = make_prelude(alloc)?;
    let types = pair(alloc, named(INT64), Ty::Any)?;
    let sites = push_site(sites, F, types, Expr::Int(1))?;
    let types = pair(alloc, Ty::Any, named(INT64))?;
    let sites = push_site(sites, F, types, Expr::Int(2))?;
    let types = pair(alloc, named(INT64), named(INT64))?;
    let sites = push_site(sites, F, types, Expr::Int(3))?;
    Sites::from_vec(alloc, sites)
}

fn make_crossed_top(alloc: Global) -> Result<Items, AllocError>
    ensures { IfOk result (λ top. top ≡ crossed_top) }
{
    let top = push(Vec::new(alloc), Item::Define(14))?;
    let top = push(top, Item::Define(15))?;
    let top = push(top, Item::Define(16))?;
    Items::from_vec(alloc, top)
}

fn make_crossed(alloc: Global) -> Result<Program, AllocError>
    ensures { IfOk result (λ P. P ≡ crossed) }
{
    let names = make_names(alloc, &["f"])?;
    let sites = make_crossed_sites(alloc)?;
    let types = pair(alloc, named(INT64), named(INT64))?;
    let deletes = make_delete(alloc, types)?;
    let top = make_crossed_top(alloc)?;
    Ok(make_program(names, sites, Exprs::empty(), deletes, top))
}

fn make_child(alloc: Global) -> Result<Program, AllocError>
    ensures { IfOk result (λ P. P ≡ child) }
{
    let names = make_names(alloc, &[])?;
    let sites = make_prelude(alloc)?;
    let sites = Sites::from_vec(alloc, sites)?;
    let spawns = one(alloc, Expr::Nothing)?;
    let top = one(alloc, Item::Do(Expr::Spawn(0)))?;
    Ok(make_program(names, sites, spawns, Deletes::empty(), top))
}

/// The same, ready to be run.
pub(crate) fn ready_late(alloc: Global) -> Result<Ready, AllocError>
    ensures { IfOk result (λ ready. ready ≡ late) }
{
    let program = make_late(alloc)?;
    Ready::make(alloc, program)
}

/// The same with a place that deletes its function.
pub(crate) fn ready_deleted(alloc: Global) -> Result<Ready, AllocError>
    ensures { IfOk result (λ ready. ready ≡ deleted) }
{
    let deletes = make_delete(alloc, Tys::empty())?;
    let program = make_late_with(alloc, deletes)?;
    Ready::make(alloc, program)
}

/// Two definitions of which none is above the other, and one below both.
pub(crate) fn ready_crossed(alloc: Global) -> Result<Ready, AllocError>
    ensures { IfOk result (λ ready. ready ≡ crossed) }
{
    let program = make_crossed(alloc)?;
    Ready::make(alloc, program)
}

/// A task that does nothing.
pub(crate) fn ready_child(alloc: Global) -> Result<Ready, AllocError>
    ensures { IfOk result (λ ready. ready ≡ child) }
{
    let program = make_child(alloc)?;
    Ready::make(alloc, program)
}
