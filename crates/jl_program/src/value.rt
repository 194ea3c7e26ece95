//! Values. A tuple or a struct is one shared node, so that a value has 16 bytes and a copy costs one count at most. A list of
//! values keeps the number of nodes and the depth of its members, so that the limits of a value are two comparisons.

ghost use Rattle.std.specs.Prelude.{◌≡◌, ℕ, ◌+◌, ◌^◌, ◌<◌, ◌≤◌, ◌-◌, map, List, IfOk, min};
ghost use Rattle.jl_program.specs.Meaning.{datum};
ghost use Rattle.jl_program.specs.Members.{members};
ghost use Rattle.jl_program.specs.Measures.{nodes, nodes_all, depth, depth_all};

use jl_model::rows::Share;
use jl_model::shared::SharedNode;
use jl_model::ty::Ty;
use std::alloc::{AllocError, Global};
use std::marker::Model;

/// A value. A task stands by its number.
#[cycle(value)]
#[derive(Drop)]
pub enum Value {
    Int(i64),
    Bool(bool),
    Nothing,
    Task(u32),
    Tuple(SharedNode<Compound>),
    Struct(SharedNode<Compound>),
}

/// What a tuple or a struct is made of: its concrete type and its parts.
#[cycle(value)]
#[derive(Drop)]
pub struct Compound {
    pub ty: Ty,
    pub parts: Values,
}

/// A list of values, with the number of their nodes and their greatest depth.
#[cycle(value)]
#[derive(Drop)]
pub struct Values {
    items: Items,
    nodes: u64,
    depth: u64,
}

/// The members of a list. One or two lie in the list itself, and take no block of their own.
#[cycle(value)]
#[derive(Drop)]
pub enum Items {
    One([Value; 1]),
    Two([Value; 2]),
    Many(Vec<Value>),
}

impl Model for Values {
    ghost use Rattle.std.specs.Prelude.{List, map, ◌≡◌, min};
    ghost use Rattle.jl_program.specs.contracts.datum.Datum as e;
    ghost use Rattle.std.specs.Coded.{coded_list};
    ghost use Rattle.jl_program.specs.declared.datum.Datum.{Datum};

    ghost Value = { List Datum };

    ghost coded = { coded_list e.the_row.coded };

    ghost use Rattle.jl_program.specs.Meaning.{datum};
    ghost use Rattle.jl_program.specs.Counts.{HasCounts};
    ghost use Rattle.jl_program.specs.Members.{members};
    ghost use Rattle.jl_program.specs.Measures.{nodes_all};

    ghost view = { λ a. map datum (members a.items) };

    ghost invariant = { HasCounts };

    ghost size = { nodes_all };

    ghost use Rattle.jl_program.specs.Falls.{falls};

    ghost size_decreases = { λ a h. falls a.items };
}

/// Equal values, whose parts are shared.
fn copies(alloc: Global, items: &[Value]) -> Result<Vec<Value>, AllocError>
    ensures { IfOk result (λ v. v.items ≡ items.now) }
{
    let mut copies = Vec::new(alloc);
    for item in items {
        copies.push(item.copy()?)?;
    }
    Ok(copies)
}

/// Equal members, whose parts are shared.
fn copy_members(alloc: Global, values: &[Value]) -> Result<Items, AllocError>
    ensures { IfOk result (λ copy. members copy ≡ values.now) }
{
    match values {
        [one] => Ok(Items::One([one.copy()?])),
        [one, other] => Ok(Items::Two([one.copy()?, other.copy()?])),
        _ => Ok(Items::Many(copies(alloc, values)?)),
    }
}

impl Items {
    fn as_slice(&self) -> &[Value]
        ensures { result.now ≡ members self.now }
    {
        match self {
            Items::One(items) => items.as_slice(),
            Items::Two(items) => items.as_slice(),
            Items::Many(items) => items.as_slice(),
        }
    }
}

/// The number of nodes of these values, at most 2^64 - 1.
fn count_nodes(values: &[Value]) -> u64
    ensures { result ≡ min (nodes_all (map datum values.now)) (2 ^ 64 - 1) }
{
    let mut nodes: u64 = 0;
    for value in values {
        nodes = nodes.saturating_add(value.nodes());
    }
    nodes
}

/// The greatest depth of these values, at most 2^64 - 1.
fn find_depth(values: &[Value]) -> u64
    ensures { result ≡ min (depth_all (map datum values.now)) (2 ^ 64 - 1) }
{
    let mut depth: u64 = 0;
    for value in values {
        depth = depth.max(value.depth());
    }
    depth
}

/// The list of these members.
fn counted(items: Items) -> Values
    ensures { result ≡ map datum (members items) }
{
    let nodes = count_nodes(items.as_slice());
    let depth = find_depth(items.as_slice());
    Values {
        items,
        nodes,
        depth,
    }
}

impl Values {
    /// The number of nodes of all members, at most 2^64 - 1.
    pub fn nodes(&self) -> u64
        ensures { result ≡ min (nodes_all self.now) (2 ^ 64 - 1) }
    {
        self.nodes
    }

    /// The greatest depth of a member, at most 2^64 - 1, and 0 where there is none.
    pub fn depth(&self) -> u64
        ensures { result ≡ min (depth_all self.now) (2 ^ 64 - 1) }
    {
        self.depth
    }

    pub fn as_slice(&self) -> &[Value]
        ensures { map datum result.now ≡ self.now }
    {
        self.items.as_slice()
    }

    /// An equal list, whose members are shared. One or two take no memory.
    pub fn copy(&self, alloc: Global) -> Result<Values, AllocError>
        ensures { IfOk result (λ c. c ≡ self.now) }
    {
        Ok(Values {
            items: copy_members(alloc, self.items.as_slice())?,
            nodes: self.nodes,
            depth: self.depth,
        })
    }

    /// The list of these values. It takes no memory.
    pub fn from_vec(items: Vec<Value>) -> Values
        ensures { result ≡ map datum items.items }
    {
        counted(Items::Many(items))
    }

    /// The list of equal values, whose parts are shared. One or two take no memory.
    pub fn from_slice(alloc: Global, values: &[Value]) -> Result<Values, AllocError>
        ensures { IfOk result (λ list. list ≡ map datum values.now) }
    {
        Ok(counted(copy_members(alloc, values)?))
    }
}

/// The parts of a tuple or a struct.
pub fn parts_of(made: &SharedNode<Compound>) -> &[Value]
    ensures { map datum result.now ≡ made.now.parts }
{
    made.get().parts.as_slice()
}

#[tactic(auto, using(crate::proofs::CountLemmas::counts))]
impl Value {
    /// The number of nodes, at most 2^64 - 1: one, and those of the parts.
    pub fn nodes(&self) -> u64
        ensures { result ≡ min (nodes (datum self.now)) (2 ^ 64 - 1) }
    {
        match self {
            Value::Tuple(made) | Value::Struct(made) => made.get().parts.nodes().saturating_add(1),
            Value::Int(_) | Value::Bool(_) | Value::Nothing | Value::Task(_) => 1,
        }
    }

    /// The depth, at most 2^64 - 1: one more than the greatest of the parts.
    pub fn depth(&self) -> u64
        ensures { result ≡ min (depth (datum self.now)) (2 ^ 64 - 1) }
    {
        match self {
            Value::Tuple(made) | Value::Struct(made) => made.get().parts.depth().saturating_add(1),
            Value::Int(_) | Value::Bool(_) | Value::Nothing | Value::Task(_) => 1,
        }
    }

    /// An equal value, whose parts are shared. It takes no memory.
    pub fn copy(&self) -> Result<Value, AllocError>
        ensures { IfOk result (λ c. c ≡ self.now) }
    {
        match self {
            Value::Int(number) => Ok(Value::Int(*number)),
            Value::Bool(truth) => Ok(Value::Bool(*truth)),
            Value::Nothing => Ok(Value::Nothing),
            Value::Task(number) => Ok(Value::Task(*number)),
            Value::Tuple(made) => Ok(Value::Tuple(made.copy()?)),
            Value::Struct(made) => Ok(Value::Struct(made.copy()?)),
        }
    }
}

impl Share for Value {
    fn share(&self) -> Result<Value, AllocError> {
        self.copy()
    }
}
