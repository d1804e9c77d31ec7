//! Both ends of a connection in memory, whose calls fail as a plan says.
ghost use Rattle.std.specs.Prelude.{◌≡◌, ◌≤◌, ◌<◌, [], length, vec_capacity, is_err, Some, OnErr, IfOk};
ghost use Rattle.http_edges.specs.Edge.{Counts, Receives, Accepts, AppendsPart};

use crate::plan::fails;
use crate::{Failed, Sink, Source, raised};
use std::alloc::{AllocError, Global};
use std::error::Error;
use std::fmt;

/// There is no memory left.
#[derive(Clone, Copy, Debug, PartialEq, Eq)]
pub struct NoMemory;

impl fmt::Display for NoMemory {
    fn fmt<W: fmt::Write>(&self, f: &mut fmt::Formatter<W>) -> fmt::Result {
        write!(f, "there is no memory")
    }
}

impl Error for NoMemory {}

impl From<AllocError> for NoMemory {
    fn from(_error: AllocError) -> NoMemory {
        NoMemory
    }
}

/// A source in memory, which tells the bytes left. The clause `plan` of `read` says when it fails and how much it gives.
#[derive(Drop)]
pub struct MemorySource {
    input: Vec<u8>,
    taken: usize,
    chunk: usize,
    fail: Vec<u32>,
    calls: u64,
    faults: u64,
    ghost taken_within: { taken ≤ length input.items },
    ghost some: { 0 < chunk },
}

impl MemorySource {
    ghost use Rattle.http_edges.specs.Memory.{source_view, chunk_of};
    ghost use Rattle.http_edges.specs.Plan.{HasSourceBegun};

    /// A source of these bytes, which gives at most `chunk` of them, at least 1, in one call. The calls with these numbers fail, from 1.
    pub fn new(input: Vec<u8>, chunk: usize, fail: Vec<u32>) -> MemorySource
        requires { 0 < chunk }
        ensures left { (source_view result).left ≡ Some input.items }
        ensures faults { (source_view result).faults ≡ 0 }
        ensures begun { HasSourceBegun chunk fail.items result }
    {
        MemorySource {
            input,
            taken: 0,
            chunk,
            fail,
            calls: 0,
            faults: 0,
        }
    }
}

impl Source for MemorySource {
    ghost use Rattle.http_edges.specs.Memory.{source_view};
    ghost use Rattle.http_edges.specs.Plan.{ReadsByPlan};

    ghost view = { source_view };

    fn read(&mut self, into: &mut [u8]) -> Result<usize, Failed>
        ensures ok { IfOk result (λ count.
            Receives count into.old into.new (source_view self.old) (source_view self.new)) }
        ensures left { OnErr result ((source_view self.new).left ≡ (source_view self.old).left) }
        ensures size { length into.new ≡ length into.old }
        ensures counts { Counts (source_view self.old).faults (source_view self.new).faults result }
        ensures plan { ReadsByPlan result (length into.old) self.old self.new }
    {
        if fails(&self.fail, &mut self.calls) {
            self.faults = raised(self.faults);
            return Err(Failed);
        }
        let most = into.len().min(self.chunk);
        let count = most.min(self.input.len() - self.taken);
        into[..count].copy_from_slice(&self.input[self.taken..self.taken + count]);
        self.taken += count;
        Ok(count)
    }
}

/// A sink in memory, which tells the bytes written. The clause `plan` of `write` says when it fails and how much it takes.
#[derive(Drop)]
pub struct MemorySink {
    written: Vec<u8>,
    room: usize,
    fail: Vec<u32>,
    calls: u64,
    faults: u64,
    ghost within: { length written.items ≤ room },
    ghost capacity: { room ≤ vec_capacity written },
}

impl MemorySink {
    ghost use Rattle.http_edges.specs.Memory.{sink_view};
    ghost use Rattle.http_edges.specs.Plan.{HasSinkBegun};

    /// A sink with room for so many bytes, which it takes here, so that no write takes memory. The calls with these numbers fail, from 1.
    /// `NoMemory` is want of memory alone.
    pub fn new(alloc: Global, room: usize, fail: Vec<u32>) -> Result<MemorySink, NoMemory>
        ensures written { IfOk result (λ sink. (sink_view sink).written ≡ Some []) }
        ensures faults { IfOk result (λ sink. (sink_view sink).faults ≡ 0) }
        ensures begun { IfOk result (HasSinkBegun room fail.items) }
    {
        Ok(MemorySink {
            written: Vec::with_capacity(alloc, room)?,
            room,
            fail,
            calls: 0,
            faults: 0,
        })
    }

    /// What was written.
    pub fn bytes(&self) -> &[u8]
        ensures { (sink_view self.now).written ≡ Some result.now }
    {
        &self.written
    }
}

impl Sink for MemorySink {
    ghost use Rattle.http_edges.specs.Memory.{sink_view};
    ghost use Rattle.http_edges.specs.Plan.{WritesByPlan};

    ghost view = { sink_view };

    fn write(&mut self, from: &[u8]) -> Result<usize, Failed>
        ensures ok { IfOk result (λ count. Accepts count from.now (sink_view self.old) (sink_view self.new)) }
        ensures part { OnErr result (AppendsPart from.now (sink_view self.old) (sink_view self.new)) }
        ensures counts { Counts (sink_view self.old).faults (sink_view self.new).faults result }
        ensures plan { WritesByPlan result (length from.now) self.old self.new }
    {
        if fails(&self.fail, &mut self.calls) {
            self.faults = raised(self.faults);
            return Err(Failed);
        }
        if from.len() > self.room - self.written.len() {
            self.faults = raised(self.faults);
            return Err(Failed);
        }
        if self.written.extend_from_slice(from).is_err() {
            self.faults = raised(self.faults);
            return Err(Failed);
        }
        Ok(from.len())
    }
}
