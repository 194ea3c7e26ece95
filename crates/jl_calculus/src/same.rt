//! Whether two outcomes, traces, records, starts or events are the same.

ghost use Rattle.std.specs.Prelude.{◌≡◌, IsTrue, ◌↔◌};

use crate::history::{Event, History, Outcome, Record, TraceItem};
use jl_model::shared::{SharedList, SharedNode};
use jl_model::ty::{Key, Ty};
use jl_program::env::Env;
use jl_program::fault::Fault;
use jl_program::tree::Start;
use jl_program::value::Value;
use jl_value::egal;

/// What can be compared by its contents.
pub trait Same {
    /// Whether the two are the same. It takes no memory, and visits each part at most once.
    fn same(&self, other: &Self) -> bool
        ensures { IsTrue result ↔ (self.now ≡ other.now) };
}

impl Same for u8 {
    fn same(&self, other: &u8) -> bool {
        self == other
    }
}

impl Same for Ty {
    fn same(&self, other: &Ty) -> bool {
        jl_types::same::same(self, other)
    }
}

impl Same for Value {
    fn same(&self, other: &Value) -> bool {
        egal(self, other)
    }
}

/// Whether two lists have the same elements.
#[tactic(auto, using(crate::proofs::SameLemmas::alike))]
fn same_all<T: Same>(xs: &[T], ys: &[T]) -> bool
    ensures { IsTrue result ↔ (xs.now ≡ ys.now) }
{
    if xs.len() != ys.len() {
        return false;
    }
    for (i, x) in xs.iter().enumerate() {
        if !x.same(&ys[i]) {
            return false;
        }
    }
    true
}

impl<T: Same> Same for SharedList<T> {
    fn same(&self, other: &SharedList<T>) -> bool {
        same_all(self.as_slice(), other.as_slice())
    }
}

impl<T: Same> Same for SharedNode<T> {
    fn same(&self, other: &SharedNode<T>) -> bool {
        self.get().same(other.get())
    }
}

/// Whether two tasks see the same values where they start.
#[tactic(auto, using(crate::proofs::SameLemmas::alike))]
fn same_seen(one: &Env, other: &Env) -> bool
    ensures { IsTrue result ↔ (one.now ≡ other.now) }
{
    if one.len() != other.len() {
        return false;
    }
    for slot in 0..one.len() {
        if !egal(one.at(slot), other.at(slot)) {
            return false;
        }
    }
    true
}

impl Same for Env {
    fn same(&self, other: &Env) -> bool {
        same_seen(self, other)
    }
}

impl Same for Key {
    fn same(&self, other: &Key) -> bool {
        self.function == other.function && self.types.same(&other.types)
    }
}

impl Same for Start {
    fn same(&self, other: &Start) -> bool {
        self.spawn == other.spawn
            && self.world == other.world
            && self.env.same(&other.env)
            && self.bindings.same(&other.bindings)
    }
}

impl Same for Outcome {
    fn same(&self, other: &Outcome) -> bool {
        match self {
            Outcome::Value(m) => match other {
                Outcome::Value(n) => m.same(n),
                Outcome::Error(_) => false,
            },
            Outcome::Error(m) => match other {
                Outcome::Error(n) => m.same(n),
                Outcome::Value(_) => false,
            },
        }
    }
}

impl Same for Record {
    fn same(&self, other: &Record) -> bool {
        self.calls == other.calls
            && self.outcome.same(&other.outcome)
            && self.output.same(&other.output)
            && self.trace.same(&other.trace)
    }
}

impl Same for History {
    fn same(&self, other: &History) -> bool {
        self.events.same(&other.events)
    }
}

impl Same for Fault {
    fn same(&self, other: &Fault) -> bool {
        match self {
            Fault::NoMethod(function, types, world) => match other {
                Fault::NoMethod(f, ts, w) => function == f && world == w && types.same(ts),
                _ => false,
            },
            Fault::Ambiguous(function, types, first, second) => match other {
                Fault::Ambiguous(f, ts, a, b) => function == f
                    && first == a
                    && second == b
                    && types.same(ts),
                _ => false,
            },
            Fault::NoConstructor(ty, types) => match other {
                Fault::NoConstructor(t, ts) => ty.same(t) && types.same(ts),
                _ => false,
            },
            Fault::DivideError => match other {
                Fault::DivideError => true,
                _ => false,
            },
            Fault::FieldType(ty, name, got) => match other {
                Fault::FieldType(t, n, g) => ty.same(t) && name.same(n) && got.same(g),
                _ => false,
            },
            Fault::BadParameter(ty) => match other {
                Fault::BadParameter(t) => ty.same(t),
                _ => false,
            },
            Fault::NoField(ty, name) => match other {
                Fault::NoField(t, n) => ty.same(t) && name.same(n),
                _ => false,
            },
            Fault::NoIndex(ty, number) => match other {
                Fault::NoIndex(t, n) => number == n && ty.same(t),
                _ => false,
            },
            Fault::NotBool(ty) => match other {
                Fault::NotBool(t) => ty.same(t),
                _ => false,
            },
            Fault::NotTask(ty) => match other {
                Fault::NotTask(t) => ty.same(t),
                _ => false,
            },
            Fault::TaskFailed(task) => match other {
                Fault::TaskFailed(t) => task == t,
                _ => false,
            },
            Fault::NoSuchMethod(function) => match other {
                Fault::NoSuchMethod(f) => function == f,
                _ => false,
            },
            Fault::FuelSpent(fuel) => match other {
                Fault::FuelSpent(f) => fuel == f,
                _ => false,
            },
            Fault::StackLimit => match other {
                Fault::StackLimit => true,
                _ => false,
            },
            Fault::WorldLimit => match other {
                Fault::WorldLimit => true,
                _ => false,
            },
            Fault::TaskLimit => match other {
                Fault::TaskLimit => true,
                _ => false,
            },
            Fault::TypeLimit => match other {
                Fault::TypeLimit => true,
                _ => false,
            },
            Fault::ValueLimit => match other {
                Fault::ValueLimit => true,
                _ => false,
            },
        }
    }
}

impl Same for TraceItem {
    fn same(&self, other: &TraceItem) -> bool {
        match self {
            TraceItem::Look { world, at } => match other {
                TraceItem::Look { world: w, at: a } => world == w && at == a,
                _ => false,
            },
            TraceItem::Def { site, at } => match other {
                TraceItem::Def { site: s, at: a } => site == s && at == a,
                _ => false,
            },
            TraceItem::Spawn { child, at } => match other {
                TraceItem::Spawn { child: c, at: a } => child == c && at == a,
                _ => false,
            },
            TraceItem::Fetch { task, outcome, at } => match other {
                TraceItem::Fetch {
                    task: t,
                    outcome: o,
                    at: a,
                } => task == t && at == a && outcome.same(o),
                _ => false,
            },
            TraceItem::WorldFull { at } => match other {
                TraceItem::WorldFull { at: a } => at == a,
                _ => false,
            },
            TraceItem::TaskFull { at } => match other {
                TraceItem::TaskFull { at: a } => at == a,
                _ => false,
            },
            TraceItem::Del { place, at } => match other {
                TraceItem::Del { place: p, at: a } => place == p && at == a,
                _ => false,
            },
            TraceItem::Absent { place, at } => match other {
                TraceItem::Absent { place: p, at: a } => place == p && at == a,
                _ => false,
            },
        }
    }
}

impl Same for Event {
    fn same(&self, other: &Event) -> bool {
        match self {
            Event::Begin(fuel) => match other {
                Event::Begin(f) => fuel == f,
                _ => false,
            },
            Event::Key(key) => match other {
                Event::Key(k) => key.same(k),
                _ => false,
            },
            Event::Fill { key, site, first } => match other {
                Event::Fill {
                    key: k,
                    site: s,
                    first: f,
                } => key == k && site == s && first == f,
                _ => false,
            },
            Event::Def { task, site } => match other {
                Event::Def { task: t, site: s } => task == t && site == s,
                _ => false,
            },
            Event::Del { task, place } => match other {
                Event::Del { task: t, place: p } => task == t && place == p,
                _ => false,
            },
            Event::Spawn { task, child, start } => match other {
                Event::Spawn {
                    task: t,
                    child: c,
                    start: s,
                } => task == t && child == c && start.same(s),
                _ => false,
            },
            Event::Done { task, ended } => match other {
                Event::Done { task: t, ended: e } => task == t && ended.same(e),
                _ => false,
            },
        }
    }
}
