//! What is read of a history line by line.

ghost use Rattle.std.specs.Prelude.{◌≡◌, IfOk, OnOk};
ghost use Rattle.jl_history.specs.Reading.{fresh, next, Moves, with_entry, after_header, after_begin, after_key, after_fill, after_def, after_del, after_spawn, after_done, after_end, after_fields, after_entry, after_step, after_output, after_traced, after_outcome, has_last, is_finished};

use crate::fields::{MOST_ITEMS, cut, number, small, three, three_small, two};
use crate::lines::{ending, step};
use crate::texts::{key, output, share};
use jl_model::limits::MOST_FUEL;
use jl_model::rows::Row;
use jl_model::ty::Bytes;
use jl_report::{Entries, Entry, Step, first_line};
use std::alloc::{AllocError, Global};
use std::mem;

/// What the next line has to be. Of a task that ended, its number and its calls were read.
#[derive(Clone, Copy)]
pub(crate) enum Stage {
    /// The first line.
    Header,
    /// The line of the begin.
    Begin,
    /// The line of an entry, or the last line.
    Entry,
    /// So many lines of a trace, and then that of the output.
    Trace { task: u32, calls: u32, left: u64 },
    /// The line of the outcome.
    Outcome { task: u32, calls: u32 },
    /// There is none.
    Nothing,
}

/// What was read of a history.
#[derive(Drop)]
pub(crate) struct Reader {
    /// Whether the program has a deletion place, so that deletions may be told.
    pub(crate) places: bool,
    pub(crate) stage: Stage,
    pub(crate) entries: Row<Entry>,
    /// The items of the trace that is being read.
    pub(crate) trace: Row<Step>,
    /// The output of the task whose outcome is to be read.
    pub(crate) output: Bytes,
}

impl Reader {
    /// A reader that has read nothing yet, of a history of a program that has a deletion place or has none.
    pub(crate) fn new(alloc: Global, places: bool) -> Reader
        ensures { result ≡ fresh places }
    {
        Reader {
            places,
            stage: Stage::Header,
            entries: Row::new(alloc),
            trace: Row::new(alloc),
            output: Bytes::empty(),
        }
    }

    /// One more entry, after which others may come.
    fn enter(&mut self, entry: Entry) -> Result<(), AllocError>
        ensures { OnOk result (self.new ≡ with_entry self.old entry) }
    {
        self.entries.push(entry)?;
        self.stage = Stage::Entry;
        Ok(())
    }

    /// The first line.
    fn take_header(&mut self, line: &[u8]) -> bool
        ensures { Moves result self.new (after_header line.now self.old) }
    {
        if line != first_line(self.places).as_bytes() {
            return false;
        }
        self.stage = Stage::Begin;
        true
    }

    /// The line of the begin.
    fn take_begin(&mut self, line: &[u8]) -> Result<bool, AllocError>
        ensures { IfOk result (λ b. Moves b self.new (after_begin line.now self.old)) }
    {
        let Some((word, fields)) = cut(b' ', line) else {
            return Ok(false);
        };
        if word != b"begin".as_slice() {
            return Ok(false);
        }
        let Some(fuel) = number(MOST_FUEL, fields) else {
            return Ok(false);
        };
        self.enter(Entry::Begin(fuel))?;
        Ok(true)
    }

    /// The fields of a key.
    fn take_key(&mut self, alloc: Global, fields: &[u8]) -> Result<bool, AllocError>
        ensures { IfOk result (λ b. Moves b self.new (after_key fields.now self.old)) }
    {
        let Some((number, function, tuple)) = key(fields) else {
            return Ok(false);
        };
        let function = share(alloc, function)?;
        let tuple = share(alloc, tuple)?;
        let entry = Entry::Key {
            number,
            function,
            tuple,
        };
        self.enter(entry)?;
        Ok(true)
    }

    /// The fields of a fill.
    fn take_fill(&mut self, fields: &[u8]) -> Result<bool, AllocError>
        ensures { IfOk result (λ b. Moves b self.new (after_fill fields.now self.old)) }
    {
        let Some((key, site, first)) = three_small(fields) else {
            return Ok(false);
        };
        self.enter(Entry::Fill { key, site, first })?;
        Ok(true)
    }

    /// The fields of a definition.
    fn take_def(&mut self, fields: &[u8]) -> Result<bool, AllocError>
        ensures { IfOk result (λ b. Moves b self.new (after_def fields.now self.old)) }
    {
        let Some((task, site)) = two(fields) else {
            return Ok(false);
        };
        self.enter(Entry::Def { task, site })?;
        Ok(true)
    }

    /// The fields of a deletion.
    fn take_del(&mut self, fields: &[u8]) -> Result<bool, AllocError>
        ensures { IfOk result (λ b. Moves b self.new (after_del fields.now self.old)) }
    {
        let Some((task, place)) = two(fields) else {
            return Ok(false);
        };
        self.enter(Entry::Del { task, place })?;
        Ok(true)
    }

    /// The fields of a spawn.
    fn take_spawn(&mut self, fields: &[u8]) -> Result<bool, AllocError>
        ensures { IfOk result (λ b. Moves b self.new (after_spawn fields.now self.old)) }
    {
        let Some((task, child, place)) = three_small(fields) else {
            return Ok(false);
        };
        self.enter(Entry::Spawn { task, child, place })?;
        Ok(true)
    }

    /// The fields of the end of a task.
    fn take_done(&mut self, fields: &[u8]) -> bool
        ensures { Moves result self.new (after_done fields.now self.old) }
    {
        let Some((task, calls, left)) = three(MOST_ITEMS, fields) else {
            return false;
        };
        self.stage = Stage::Trace { task, calls, left };
        true
    }

    /// The field of the last line, which has the number of the entries.
    fn take_end(&mut self, fields: &[u8]) -> bool
        ensures { Moves result self.new (after_end fields.now self.old) }
    {
        let Some(number) = small(fields) else {
            return false;
        };
        if u64::from(number) != self.entries.len() as u64 {
            return false;
        }
        self.stage = Stage::Nothing;
        true
    }

    /// The fields of the line of an entry, or of the last line, by its word.
    fn take_fields(&mut self, alloc: Global, word: &[u8], fields: &[u8]) -> Result<bool, AllocError>
        ensures { IfOk result (λ b. Moves b self.new (after_fields self.old word.now fields.now)) }
    {
        if word == b"key".as_slice() {
            self.take_key(alloc, fields)
        } else if word == b"fill".as_slice() {
            self.take_fill(fields)
        } else if word == b"def".as_slice() {
            self.take_def(fields)
        } else if word == b"del".as_slice() && self.places {
            self.take_del(fields)
        } else if word == b"spawn".as_slice() {
            self.take_spawn(fields)
        } else if word == b"done".as_slice() {
            Ok(self.take_done(fields))
        } else if word == b"end".as_slice() {
            Ok(self.take_end(fields))
        } else {
            Ok(false)
        }
    }

    /// The line of an entry, or the last line.
    fn take_entry(&mut self, alloc: Global, line: &[u8]) -> Result<bool, AllocError>
        ensures { IfOk result (λ b. Moves b self.new (after_entry line.now self.old)) }
    {
        match cut(b' ', line) {
            Some((word, fields)) => self.take_fields(alloc, word, fields),
            None => Ok(false),
        }
    }

    /// A line of a trace, of which so many are left after it.
    fn take_step(
        &mut self,
        task: u32,
        calls: u32,
        left: u64,
        line: &[u8],
    ) -> Result<bool, AllocError>
        ensures { IfOk result (λ b. Moves b self.new (after_step task calls left line.now self.old)) }
    {
        let Some(step) = step(self.places, line) else {
            return Ok(false);
        };
        self.trace.push(step)?;
        self.stage = Stage::Trace { task, calls, left };
        Ok(true)
    }

    /// The line of the output.
    fn take_output(
        &mut self,
        alloc: Global,
        task: u32,
        calls: u32,
        line: &[u8],
    ) -> Result<bool, AllocError>
        ensures { IfOk result (λ b. Moves b self.new (after_output task calls line.now self.old)) }
    {
        let Some((word, quoted)) = cut(b' ', line) else {
            return Ok(false);
        };
        if word != b"output".as_slice() {
            return Ok(false);
        }
        let Some(output) = output(alloc, quoted)? else {
            return Ok(false);
        };
        self.output = output;
        self.stage = Stage::Outcome { task, calls };
        Ok(true)
    }

    /// The line of a trace or of the output.
    fn take_traced(
        &mut self,
        alloc: Global,
        task: u32,
        calls: u32,
        left: u64,
        line: &[u8],
    ) -> Result<bool, AllocError>
        ensures { IfOk result (λ b. Moves b self.new (after_traced task calls left line.now self.old)) }
    {
        if left == 0 {
            self.take_output(alloc, task, calls, line)
        } else {
            self.take_step(task, calls, left - 1, line)
        }
    }

    /// The line of the outcome.
    fn take_outcome(
        &mut self,
        alloc: Global,
        task: u32,
        calls: u32,
        line: &[u8],
    ) -> Result<bool, AllocError>
        ensures { IfOk result (λ b. Moves b self.new (after_outcome task calls line.now self.old)) }
    {
        let Some(ending) = ending(alloc, line)? else {
            return Ok(false);
        };
        let trace = mem::replace(&mut self.trace, Row::new(alloc)).into_shared(alloc)?;
        let output = mem::replace(&mut self.output, Bytes::empty());
        let entry = Entry::Done {
            task,
            calls,
            trace,
            output,
            ending,
        };
        self.enter(entry)?;
        Ok(true)
    }

    /// Takes a line, and answers whether it is of the form.
    pub(crate) fn take(&mut self, alloc: Global, line: &[u8]) -> Result<bool, AllocError>
        ensures { IfOk result (λ b. Moves b self.new (next line.now self.old)) }
    {
        match self.stage {
            Stage::Header => Ok(self.take_header(line)),
            Stage::Begin => self.take_begin(line),
            Stage::Entry => self.take_entry(alloc, line),
            Stage::Trace { task, calls, left } => {
                self.take_traced(alloc, task, calls, left, line)
            }
            Stage::Outcome { task, calls } => self.take_outcome(alloc, task, calls, line),
            Stage::Nothing => Ok(false),
        }
    }

    /// Whether the last line was read.
    fn has_last(&self) -> bool
        ensures { result ≡ has_last self.now.stage }
    {
        match self.stage {
            Stage::Nothing => true,
            _ => false,
        }
    }

    /// Whether the last line was read, and nothing follows it.
    pub(crate) fn is_finished(&self, rest: &[u8]) -> bool
        ensures { result ≡ is_finished self.now.stage rest.now }
    {
        rest.is_empty() && self.has_last()
    }

    /// The entries that were read.
    pub(crate) fn into_entries(self, alloc: Global) -> Result<Entries, AllocError>
        ensures { IfOk result (λ es. es ≡ self.entries) }
    {
        let Reader {
            entries,
            trace,
            output,
            ..
        } = self;
        drop(trace);
        drop(output);
        entries.into_shared(alloc)
    }
}
