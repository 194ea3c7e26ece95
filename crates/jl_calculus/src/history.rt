//! Outcomes, traces, events and histories.

ghost use Rattle.std.specs.Prelude.{◌≡◌, IfOk};

use jl_model::shared::{SharedList, SharedNode};
use jl_model::ty::{Bytes, Key};
use jl_program::fault::Fault;
use jl_program::tree::Start;
use jl_program::value::Value;
use std::alloc::AllocError;

/// The steps of a task that others may see, in order.
pub type TraceItems = SharedList<TraceItem>;
/// Events, in order.
pub type Events = SharedList<Event>;

/// How a task ended.
#[derive(Drop)]
pub enum Outcome {
    Value(Value),
    Error(Fault),
}

impl Outcome {
    /// An equal outcome, whose parts are shared. It takes no memory.
    pub fn copy(&self) -> Result<Outcome, AllocError>
        ensures { IfOk result (λ c. c ≡ self.now) }
    {
        match self {
            Outcome::Value(value) => Ok(Outcome::Value(value.copy()?)),
            Outcome::Error(fault) => Ok(Outcome::Error(fault.copy()?)),
        }
    }
}

/// A definition: the world that it made and its site.
#[derive(Clone, Copy, PartialEq, Eq, Debug)]
pub struct Def {
    pub world: u32,
    pub site: u32,
}

/// A deletion: the world that it made and its place.
#[derive(Clone, Copy, PartialEq, Eq, Debug)]
pub struct Del {
    pub world: u32,
    pub place: u32,
}

/// A change of the methods, which makes a world: the definition of a site, or the deletion at a place.
#[derive(Clone, Copy, PartialEq, Eq, Debug)]
pub enum Change {
    Def(u32),
    Del(u32),
}

/// A step of a task that others may see. `at` is the length of the history that the task had seen; for a definition, a
/// deletion and a spawn it is the place of the event. `Absent` says that there was nothing to delete at a place. The
/// outcome of a fetch is that of the record of the task, shared: so a step takes little room, however large the outcome is.
#[derive(Drop)]
pub enum TraceItem {
    Look {
        world: u32,
        at: u32,
    },
    Def {
        site: u32,
        at: u32,
    },
    Spawn {
        child: u32,
        at: u32,
    },
    Fetch {
        task: u32,
        outcome: SharedNode<Outcome>,
        at: u32,
    },
    WorldFull {
        at: u32,
    },
    TaskFull {
        at: u32,
    },
    Del {
        place: u32,
        at: u32,
    },
    Absent {
        place: u32,
        at: u32,
    },
}

impl Change {
    ghost use Rattle.jl_calculus.specs.World.{change_event};

    /// The event by which a task makes the change.
    pub fn event(self, task: u32) -> Event
        ensures { result ≡ change_event task self }
    {
        match self {
            Change::Def(site) => Event::Def { task, site },
            Change::Del(place) => Event::Del { task, place },
        }
    }
}

impl TraceItem {
    /// An equal item, whose outcome is shared. It takes no memory.
    pub fn copy(&self) -> Result<TraceItem, AllocError>
        ensures { IfOk result (λ c. c ≡ self.now) }
    {
        match self {
            TraceItem::Look { world, at } => Ok(TraceItem::Look {
                world: *world,
                at: *at,
            }),
            TraceItem::Def { site, at } => Ok(TraceItem::Def {
                site: *site,
                at: *at,
            }),
            TraceItem::Spawn { child, at } => Ok(TraceItem::Spawn {
                child: *child,
                at: *at,
            }),
            TraceItem::Fetch { task, outcome, at } => Ok(TraceItem::Fetch {
                task: *task,
                outcome: outcome.copy()?,
                at: *at,
            }),
            TraceItem::WorldFull { at } => Ok(TraceItem::WorldFull { at: *at }),
            TraceItem::TaskFull { at } => Ok(TraceItem::TaskFull { at: *at }),
            TraceItem::Del { place, at } => Ok(TraceItem::Del {
                place: *place,
                at: *at,
            }),
            TraceItem::Absent { place, at } => Ok(TraceItem::Absent {
                place: *place,
                at: *at,
            }),
        }
    }
}

/// What a finished task did: its trace, its outcome, what it printed and the number of calls that it made.
#[derive(Drop)]
pub struct Record {
    pub trace: TraceItems,
    pub outcome: SharedNode<Outcome>,
    pub output: Bytes,
    pub calls: u64,
}

impl Record {
    /// An equal record, whose trace, outcome and output are shared. It takes no memory.
    pub fn copy(&self) -> Result<Record, AllocError>
        ensures { IfOk result (λ c. c ≡ self.now) }
    {
        Ok(Record {
            trace: self.trace.copy()?,
            outcome: self.outcome.copy()?,
            output: self.output.copy()?,
            calls: self.calls,
        })
    }
}

/// One step of a run that all tasks may see. `Begin` carries the fuel of each task.
#[derive(Drop)]
pub enum Event {
    Begin(u64),
    Key(Key),
    Fill { key: u32, site: u32, first: u32 },
    Def { task: u32, site: u32 },
    Del { task: u32, place: u32 },
    Spawn { task: u32, child: u32, start: Start },
    Done { task: u32, ended: Record },
}

impl Event {
    /// An equal event, whose parts are shared. It takes no memory.
    pub fn copy(&self) -> Result<Event, AllocError>
        ensures { IfOk result (λ c. c ≡ self.now) }
    {
        match self {
            Event::Begin(fuel) => Ok(Event::Begin(*fuel)),
            Event::Key(key) => Ok(Event::Key(key.copy()?)),
            Event::Fill { key, site, first } => Ok(Event::Fill {
                key: *key,
                site: *site,
                first: *first,
            }),
            Event::Def { task, site } => Ok(Event::Def {
                task: *task,
                site: *site,
            }),
            Event::Del { task, place } => Ok(Event::Del {
                task: *task,
                place: *place,
            }),
            Event::Spawn { task, child, start } => Ok(Event::Spawn {
                task: *task,
                child: *child,
                start: start.copy()?,
            }),
            Event::Done { task, ended } => Ok(Event::Done {
                task: *task,
                ended: ended.copy()?,
            }),
        }
    }
}

/// The events of a run, in order.
#[derive(Drop)]
pub struct History {
    pub events: Events,
}

impl History {
    /// An equal history, whose events are shared. It takes no memory.
    pub fn copy(&self) -> Result<History, AllocError>
        ensures { IfOk result (λ c. c ≡ self.now) }
    {
        Ok(History {
            events: self.events.copy()?,
        })
    }
}

/// What a look at the newest world tells: that world, and the length of the history that is then seen.
#[derive(Clone, Copy, PartialEq, Eq, Debug)]
pub struct Seen {
    pub world: u32,
    pub length: u32,
}

/// Why a definition was not made.
#[derive(Drop, Debug)]
pub enum DefineFault {
    WorldLimit,
    Memory,
}

/// Why nothing was deleted.
#[derive(Drop, Debug)]
pub enum DeleteFault {
    WorldLimit,
    NoSuchMethod,
    Memory,
}

/// Why a task was not started.
#[derive(Drop, Debug)]
pub enum SpawnFault {
    TaskLimit,
    Memory,
}

/// Why a task's outcome is not there.
#[derive(Drop, Debug)]
pub enum FetchFault {
    NotYet,
    Memory,
}
