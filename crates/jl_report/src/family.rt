//! What each task printed, and which tasks it started.

ghost use Rattle.std.specs.Prelude.{◌≡◌, ◌<◌, ◌++◌, [], ◌∷◌, length, get_or, slice_set, IfOk, OnOk};
ghost use Rattle.jl_calculus.specs.Legal.{outputs};
ghost use Rattle.jl_calculus.specs.Orders.{path_order};
ghost use Rattle.jl_report.specs.Family.{AreOfTasks, IsWithin, IsFamilyOf, outputs_with, children_with, printed_below};

use jl_calculus::history::{Event, Record};
use jl_model::rows::Row;
use jl_model::ty::Bytes;
use std::alloc::{AllocError, Global};

/// What each task printed, and its children in the order of their spawns, by the task's number.
#[derive(Drop)]
pub(crate) struct Family {
    outputs: Vec<Bytes>,
    children: Vec<Row<u32>>,
}

/// The family of the root, which has printed nothing and started nobody.
fn root_alone(alloc: Global) -> Result<Family, AllocError>
    ensures outputs { IfOk result (λ family. family.outputs.items ≡ [] ∷ []) }
    ensures children { IfOk result (λ family. family.children.items ≡ [] ∷ []) }
{
    let mut outputs = Vec::new(alloc);
    outputs.push(Bytes::empty())?;
    let mut children = Vec::new(alloc);
    children.push(Row::new(alloc))?;
    Ok(Family { outputs, children })
}

impl Family {
    /// One more task, a child of this one.
    fn spawn(&mut self, alloc: Global, parent: u32, child: u32) -> Result<(), AllocError>
        requires { parent < length self.old.children.items }
        ensures outputs { OnOk result (self.new.outputs.items ≡ self.old.outputs.items ++ [] ∷ []) }
        ensures children { OnOk result (self.new.children.items ≡ slice_set self.old.children.items parent (get_or self.old.children.items parent [] ++ child ∷ []) ++ [] ∷ []) }
    {
        self.children[parent as usize].push(child)?;
        self.children.push(Row::new(alloc))?;
        self.outputs.push(Bytes::empty())?;
        Ok(())
    }

    /// What a task printed, now that it has ended.
    fn end(&mut self, task: u32, ended: &Record) -> Result<(), AllocError>
        requires { task < length self.old.outputs.items }
        ensures outputs { OnOk result (self.new.outputs.items ≡ slice_set self.old.outputs.items task ended.now.output) }
        ensures children { OnOk result (self.new.children.items ≡ self.old.children.items) }
    {
        self.outputs[task as usize] = ended.output.copy()?;
        Ok(())
    }

    /// One more event.
    fn note(&mut self, alloc: Global, event: &Event) -> Result<(), AllocError>
        requires { IsWithin (length self.old.outputs.items) (length self.old.children.items) event.now }
        ensures outputs { OnOk result (self.new.outputs.items ≡ outputs_with self.old.outputs.items event.now) }
        ensures children { OnOk result (self.new.children.items ≡ children_with self.old.children.items event.now) }
    {
        match event {
            Event::Spawn { task, child, .. } => self.spawn(alloc, *task, *child),
            Event::Done { task, ended } => self.end(*task, ended),
            _ => Ok(()),
        }
    }

    /// How many tasks there are.
    fn count(&self) -> usize
        ensures { result ≡ length self.now.outputs.items }
    {
        self.outputs.len()
    }

    /// What a task printed, and nothing for a number past the last.
    fn output(&self, task: u32) -> &[u8]
        ensures { result.now ≡ get_or self.now.outputs.items task [] }
    {
        match self.outputs.as_slice().get(task as usize) {
            Some(output) => output.as_slice(),
            None => &[],
        }
    }

    /// The children of a task, and none for a number past the last.
    fn children(&self, task: u32) -> &[u32]
        ensures { result.now ≡ get_or self.now.children.items task [] }
    {
        match self.children.as_slice().get(task as usize) {
            Some(children) => children.as_slice(),
            None => &[],
        }
    }
}

/// The family of the tasks of a history.
fn gather(alloc: Global, events: &[Event]) -> Result<Family, AllocError>
    requires { AreOfTasks events.now }
    ensures { IfOk result (λ family. IsFamilyOf events.now family.outputs.items family.children.items) }
{
    let mut family = root_alone(alloc)?;
    for event in events {
        family.note(alloc, event)?;
    }
    Ok(family)
}

/// What a task and those below it printed, in path order, as far as so many generations.
fn append_below(
    out: &mut Row<u8>,
    family: &Family,
    generations: usize,
    task: u32,
) -> Result<(), AllocError>
    ensures { OnOk result (out.new ≡ out.old ++ printed_below family.now.outputs.items family.now.children.items generations task) }
{
    if generations == 0 {
        return Ok(());
    }
    out.append(family.output(task))?;
    for child in family.children(task) {
        append_below(out, family, generations - 1, *child)?;
    }
    Ok(())
}

/// Appends what the tasks of a history printed, in path order.
pub(crate) fn append_outputs(
    alloc: Global,
    out: &mut Row<u8>,
    events: &[Event],
) -> Result<(), AllocError>
    requires { AreOfTasks events.now }
    ensures { OnOk result (out.new ≡ out.old ++ outputs events.now (path_order events.now)) }
{
    let family = gather(alloc, events)?;
    append_below(out, &family, family.count(), 0)
}
