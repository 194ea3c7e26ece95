//! What the model keeps of a task: what it has seen, the tasks that it knows, and its last search.

ghost use Rattle.std.specs.Prelude.{◌≡◌, ◌<◌, ◌+◌, ◌++◌, ◌∷◌, [], map, length, slice_get, OnOk, OnErr, vec_len, vec_capacity};
ghost use Rattle.jl_calculus.specs.Core.{with_seen, with_search, with_known, at_task};
ghost use Rattle.jl_core.specs.Reached.{site_at, site_by, search_by};
ghost use Rattle.jl_core.specs.View.{task_of, search_of, stand_of, row_at, last_of};

use jl_calculus::history::Event;
use std::alloc::AllocError;

/// Where a search is: at a row, or at its end, with the site that it found or with none.
#[derive(Clone, Copy)]
pub(crate) enum Stand {
    AtRow(u32),
    Found(u32),
    Missed,
}

/// A search of a key in a world, which stays whatever its task looks at afterwards.
#[derive(Clone, Copy)]
pub(crate) struct Search {
    pub(crate) key: u32,
    pub(crate) world: u32,
    pub(crate) stand: Stand,
}

/// A task: the length of the history that it has seen, the tasks that it knows, and its last search.
#[derive(Drop)]
pub(crate) struct Task {
    pub(crate) seen: usize,
    pub(crate) known: Vec<u32>,
    pub(crate) search: Option<Search>,
}

impl Search {
    /// The row at which it is.
    pub(crate) fn row(&self) -> Option<u32>
        ensures { result ≡ row_at (stand_of self.now.stand) }
    {
        match self.stand {
            Stand::AtRow(row) => Some(row),
            Stand::Found(_) => None,
            Stand::Missed => None,
        }
    }

    /// The site that it has found.
    fn site(&self) -> Option<u32>
        ensures { result ≡ site_at (stand_of self.now.stand) }
    {
        match self.stand {
            Stand::Found(site) => Some(site),
            Stand::AtRow(_) => None,
            Stand::Missed => None,
        }
    }
}

impl Task {
    /// The site that its last search has found.
    pub(crate) fn found(&self) -> Option<u32>
        ensures { result ≡ site_by (last_of self.now.search) }
    {
        match &self.search {
            Some(last) => last.site(),
            None => None,
        }
    }

    /// The task has seen so many events, or more.
    fn see(&mut self, count: usize)
        ensures { task_of self.new ≡ with_seen count (task_of self.old) }
    {
        self.seen = self.seen.max(count);
    }

    /// It knows these tasks too. Without memory it stays as it was.
    fn learn(&mut self, others: &[u32]) -> Result<(), AllocError>
        ensures ok { OnOk result (task_of self.new ≡ with_known others.now (task_of self.old)) }
        ensures err { OnErr result (task_of self.new ≡ task_of self.old) }
    {
        self.known.extend_from_slice(others)
    }
}

/// The last search of a task; none where it has made none, or where there is no such task.
pub(crate) fn last_search(tasks: &[Task], task: u32) -> Option<Search>
    ensures { last_of result ≡ search_by (slice_get (map task_of tasks.now) task) }
{
    match tasks.get(task as usize) {
        Some(state) => state.search,
        None => None,
    }
}

/// A task has seen so many events, or more.
pub(crate) fn see(tasks: &mut Vec<Task>, task: u32, count: usize)
    requires { task < length tasks.old.items }
    ensures tasks { map task_of tasks.new.items ≡ at_task (with_seen count) task (map task_of tasks.old.items) }
    ensures len { vec_len tasks.new ≡ vec_len tasks.old }
    ensures capacity { vec_capacity tasks.new ≡ vec_capacity tasks.old }
{
    let state = &mut tasks[task as usize];
    state.see(count);
}

/// A task's last search is this one.
pub(crate) fn begin_search(tasks: &mut Vec<Task>, task: u32, last: Search)
    requires { task < length tasks.old.items }
    ensures { map task_of tasks.new.items ≡ at_task (with_search (search_of last)) task (map task_of tasks.old.items) }
{
    let state = &mut tasks[task as usize];
    state.search = Some(last);
}

/// A task knows these tasks too. Without memory all stay as they were.
pub(crate) fn learn(tasks: &mut Vec<Task>, task: u32, others: &[u32]) -> Result<(), AllocError>
    requires { task < length tasks.old.items }
    ensures ok { OnOk result (map task_of tasks.new.items ≡ at_task (with_known others.now) task (map task_of tasks.old.items)) }
    ensures err { OnErr result (map task_of tasks.new.items ≡ map task_of tasks.old.items) }
    ensures len { vec_len tasks.new ≡ vec_len tasks.old }
    ensures capacity { vec_capacity tasks.new ≡ vec_capacity tasks.old }
{
    let state = &mut tasks[task as usize];
    state.learn(others)
}

/// One more event, which its task has seen then, with all before it. Without memory all stays as it was.
pub(crate) fn add_event(
    events: &mut Vec<Event>,
    tasks: &mut Vec<Task>,
    task: u32,
    event: Event,
) -> Result<(), AllocError>
    requires { task < length tasks.old.items }
    ensures events { OnOk result (events.new.items ≡ events.old.items ++ event ∷ []) }
    ensures tasks { OnOk result (map task_of tasks.new.items ≡ at_task (with_seen (length events.old.items + 1)) task (map task_of tasks.old.items)) }
    ensures same_events { OnErr result (events.new.items ≡ events.old.items) }
    ensures same_tasks { OnErr result (map task_of tasks.new.items ≡ map task_of tasks.old.items) }
{
    events.push(event)?;
    see(tasks, task, events.len());
    Ok(())
}
