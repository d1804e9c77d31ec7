//! A listener in memory, which tells all.
ghost use Rattle.std.specs.Prelude.{◌≡◌, ◌≤◌, ◌+◌, ◌++◌, [], ◌∷◌, vec_len, vec_capacity, All, OnErr, IfOk};
ghost use Rattle.std.specs.VecDeque.{deque_len};
ghost use Rattle.http_edges.specs.Edge.{Counts, Rose};
ghost use Rattle.http_listeners.specs.Listener.{Takes, TakesNone, Finishes};
ghost use Rattle.http_listeners.specs.Conns.{IsFresh, conn_view};

use crate::{Conn, Listener};
use http_edges::{Failed, MemorySink, MemorySource, NoMemory};
use std::alloc::Global;
use std::collections::VecDeque;

/// A listener in memory, which tells its inputs to come and its finished connections.
///
/// It hands out its connections in their order, and fails once there are no more.
#[derive(Drop)]
pub struct MemoryListener {
    waiting: VecDeque<Conn<MemorySource, MemorySink>>,
    finished: Vec<Conn<MemorySource, MemorySink>>,
    unfinished: usize,
    room: usize,
    faults: u64,
    ghost fresh: { All IsFresh waiting.items },
    ghost all: { deque_len waiting + unfinished + vec_len finished ≤ room },
    ghost capacity: { room ≤ vec_capacity finished },
}

// One more fault, or as many as a count can hold.
fn raised(faults: u64) -> u64
    ensures rose { Rose faults result }
    ensures no_less { faults ≤ result }
{
    faults.saturating_add(1)
}

impl MemoryListener {
    ghost use Rattle.http_listeners.specs.Memory.{to_come, finished_conns, listener_view};

    /// A listener with these connections, on which no call failed and nothing was written. It takes room for the finished ones here, so that
    /// no call of `Listener` takes memory. `NoMemory` is want of memory alone.
    pub fn new(
        alloc: Global,
        conns: Vec<Conn<MemorySource, MemorySink>>,
    ) -> Result<MemoryListener, NoMemory>
        requires { All IsFresh conns.items }
        ensures to_come { IfOk result (λ listener. to_come listener ≡ conns.items) }
        ensures finished { IfOk result (λ listener. finished_conns listener ≡ []) }
        ensures faults { IfOk result (λ listener. (listener_view listener).faults ≡ 0) }
        ensures unfinished { IfOk result (λ listener. (listener_view listener).unfinished ≡ 0) }
    {
        let room = conns.len();
        Ok(MemoryListener {
            waiting: VecDeque::from(conns),
            finished: Vec::with_capacity(alloc, room)?,
            unfinished: 0,
            room,
            faults: 0,
        })
    }

    /// The connections that were finished, the first one first.
    pub fn finished(&self) -> &[Conn<MemorySource, MemorySink>]
        ensures { result.now ≡ finished_conns self.now }
    {
        &self.finished
    }
}

impl Listener for MemoryListener {
    ghost use Rattle.http_listeners.specs.Memory.{to_come, finished_conns, listener_view, HandsOut};

    type In = MemorySource;

    type Out = MemorySink;

    ghost view = { listener_view };

    fn accept(&mut self) -> Result<Conn<MemorySource, MemorySink>, Failed>
        ensures ok { IfOk result (λ conn. Takes (conn_view conn) (listener_view self.old) (listener_view self.new)) }
        ensures none { OnErr result (TakesNone (listener_view self.old) (listener_view self.new)) }
        ensures counts { Counts (listener_view self.old).faults (listener_view self.new).faults result }
        ensures hands_out { HandsOut result (to_come self.old) (to_come self.new) }
        ensures finished { finished_conns self.new ≡ finished_conns self.old }
    {
        match self.waiting.pop_front() {
            Some(conn) => {
                self.unfinished += 1;
                Ok(conn)
            }
            None => {
                self.faults = raised(self.faults);
                Err(Failed)
            }
        }
    }

    fn finish(&mut self, conn: Conn<MemorySource, MemorySink>)
        requires { 1 ≤ (listener_view self.old).unfinished }
        ensures finishes { Finishes (conn_view conn) (listener_view self.old) (listener_view self.new) }
        ensures to_come { to_come self.new ≡ to_come self.old }
        ensures finished { finished_conns self.new ≡ finished_conns self.old ++ conn ∷ [] }
    {
        self.unfinished -= 1;
        let _ = self.finished.push(conn);
    }
}
