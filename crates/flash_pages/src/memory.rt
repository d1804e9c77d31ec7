//! A board in memory, whose calls fail and stop as a plan says.
//!
//! It keeps what each change took the place of. So what a cut may have left at any moment is told by undoing the changes, the newest first.
ghost use Rattle.std.specs.Prelude.{◌≡◌, ◌≤◌, ◌<◌, ◌+◌, ◌++◌, [], ◌∷◌, nat_le, is_err, false, length, slice_set, replicate, vec_capacity, Some, OnOk, OnErr, IfOk, IsTrue, IsSomeAnd, All};
ghost use Rattle.flash_pages.specs.State.{State, AreBytes, IsPage, Prog, Ext, page_at, always, SendsPart};
ghost use Rattle.flash_pages.specs.Board.{View, Told, Reads, IsProgrammed, Programs, UsesLine, Receives, Sends, FlashFaults, LineFaults};
ghost use Rattle.flash_pages.specs.Log.{is_program};

use crate::log::{Change, ChangeLog};
use crate::plan::{fails, is_next, written};
use crate::{Board, Failed, raised};
use std::alloc::{AllocError, Global};
use std::error::Error;
use std::fmt;

/// There is no memory left.
#[derive(Clone, Copy, Debug, PartialEq, Eq)]
pub struct NoMemory;

impl fmt::Display for NoMemory {
    fn fmt<W: fmt::Write>(&self, f: &mut fmt::Formatter<W>) -> fmt::Result {
        write!(f, "there is no memory")
    }
}

impl Error for NoMemory {}

impl From<AllocError> for NoMemory {
    fn from(_error: AllocError) -> NoMemory {
        NoMemory
    }
}

/// What is to go wrong on a board in memory, and in what pieces it gives its input.
#[derive(Drop)]
pub struct BoardPlan {
    /// The calls that answer `Failed` and do nothing. The calls of `Board` are numbered from 1.
    pub fail: Vec<u32>,

    /// The number of the program, from 1 and over both flashes, in which the power is cut: it writes `spoil` in place of its page.
    /// It and each later call answer `Failed`. With 0 there is no such program.
    pub stop_at: u32,

    /// What the page of the stopped program then holds.
    pub spoil: [u8; 256],

    /// The most bytes that one `receive` gives, at least 1.
    pub chunk: u16,
    ghost some: { 0 < chunk },
}

/// A board in memory, which tells its state and the bytes left to receive.
///
/// Each of its calls of `Board` says in the clause `plan` when it fails and what it does by the board's plan.
/// Where there is no room for a program, the plan's stop doesn't come in it.
#[derive(Drop)]
pub struct MemoryBoard {
    prog: Vec<[u8; 256]>,
    ext: Vec<[u8; 256]>,
    sent: Vec<u8>,
    input: Vec<u8>,
    taken: usize,
    log: ChangeLog,
    plan: BoardPlan,
    calls: u64,
    stopped: bool,
    sent_room: u32,
    flash_faults: u64,
    line_faults: u64,
    ghost prog_size: { length prog.items ≡ 480 },
    ghost ext_size: { length ext.items ≡ 2048 },
    ghost prog_pages: { All IsPage prog.items },
    ghost ext_pages: { All IsPage ext.items },
    ghost sent_bytes: { AreBytes sent.items },
    ghost taken_within: { taken ≤ length input.items },
    ghost sent_within: { length sent.items ≤ sent_room },
    ghost sent_capacity: { sent_room ≤ vec_capacity sent },
    ghost sends_within: { log.sends ≤ length sent.items },
    ghost send_room: { log.send_room ≡ sent_room },
}

// So many pages of zeros.
fn zero_pages(alloc: Global, count: usize) -> Result<Vec<[u8; 256]>, AllocError>
    ensures zeros { IfOk result (λ pages. pages.items ≡ replicate count (replicate 256 0)) }
    ensures pages { IfOk result (λ pages. All IsPage pages.items) }
{
    let mut pages = Vec::with_capacity(alloc, count)?;
    for done in 0..count {
        pages.push([0; 256])?;
    }
    Ok(pages)
}

impl MemoryBoard {
    ghost use Rattle.flash_pages.specs.Memory.{memory_view, zeros, IsFresh, unsent, plan_of, program_room, sent_room};
    ghost use Rattle.flash_pages.specs.Plan.{HasBegun};

    /// A board whose pages hold zeros and that has sent nothing. It takes room for `programs` programs of pages and for
    /// `sent` sent bytes here, so that no call of `Board` takes memory. `NoMemory` is want of memory alone.
    pub fn new(
        alloc: Global,
        input: &[u8],
        plan: BoardPlan,
        programs: u32,
        sent: u32,
    ) -> Result<MemoryBoard, NoMemory>
        ensures fresh { IfOk result (λ board. IsFresh zeros input.now (memory_view board)) }
        ensures begun { IfOk result HasBegun }
        ensures plan { IfOk result (λ board. plan_of board ≡ plan) }
        ensures rooms { IfOk result (λ board.
            (program_room board ≡ programs) × (sent_room board ≡ sent)) }
    {
        Ok(MemoryBoard {
            prog: zero_pages(alloc, 480)?,
            ext: zero_pages(alloc, 2048)?,
            sent: Vec::with_capacity(alloc, sent as usize)?,
            input: input.to_vec(alloc)?,
            taken: 0,
            log: ChangeLog::with_room(alloc, programs, sent)?,
            plan,
            calls: 0,
            stopped: false,
            sent_room: sent,
            flash_faults: 0,
            line_faults: 0,
        })
    }

    /// The power is back: both flashes and the rooms are kept, and all else begins anew, with this input and this plan.
    /// `NoMemory` is want of memory alone; the board is gone then.
    pub fn restart(
        self,
        alloc: Global,
        input: &[u8],
        plan: BoardPlan,
    ) -> Result<MemoryBoard, NoMemory>
        ensures fresh { IfOk result (λ board. IsSomeAnd (memory_view self).state (λ s.
            IsFresh (unsent s) input.now (memory_view board))) }
        ensures begun { IfOk result HasBegun }
        ensures plan { IfOk result (λ board. plan_of board ≡ plan) }
        ensures rooms { IfOk result (λ board.
            (program_room board ≡ program_room self) × (sent_room board ≡ sent_room self)) }
    {
        let MemoryBoard {
            prog,
            ext,
            mut sent,
            log,
            sent_room,
            ..
        } = self;
        let input = input.to_vec(alloc)?;
        sent.clear();
        Ok(MemoryBoard {
            prog,
            ext,
            sent,
            input,
            taken: 0,
            log: log.cleared(),
            plan,
            calls: 0,
            stopped: false,
            sent_room,
            flash_faults: 0,
            line_faults: 0,
        })
    }

    /// This page of program flash.
    pub fn prog_page(&self, page: u16) -> &[u8; 256]
        requires { page < 480 }
        ensures { IsSomeAnd (memory_view self.now).state (λ s.
            result.now ≡ page_at s (Prog page)) }
    {
        &self.prog[page as usize]
    }

    /// This page of external flash.
    pub fn ext_page(&self, page: u16) -> &[u8; 256]
        requires { page < 2048 }
        ensures { IsSomeAnd (memory_view self.now).state (λ s.
            result.now ≡ page_at s (Ext page)) }
    {
        &self.ext[page as usize]
    }

    /// The bytes that were sent since the board was made or last restarted.
    pub fn sent_bytes(&self) -> &[u8]
        ensures { IsSomeAnd (memory_view self.now).state (λ s. result.now ≡ s.sent) }
    {
        &self.sent
    }

    /// How many programs of pages there were since the board was made or last restarted, that of a stop among them.
    pub fn program_count(&self) -> u32
        ensures { result ≡ (memory_view self.now).all_programs }
    {
        self.log.program_count()
    }
}

// Puts other bytes into a page, and keeps what they took the place of. Where there is no room for that, nothing is done.
fn replace(
    pages: &mut Vec<[u8; 256]>,
    log: &mut ChangeLog,
    page: u16,
    bytes: &[u8; 256],
    change: Change,
) -> Result<(), Failed>
    requires within { page < length pages.old.items }
    requires program { IsTrue (is_program change) }
    ensures pages { OnOk result (pages.new.items ≡ slice_set pages.old.items page bytes.now) }
    ensures log { OnOk result (log.new.changes.items ≡ log.old.changes.items ++ change ∷ []) }
    ensures pages_err { OnErr result (pages.new.items ≡ pages.old.items) }
    ensures log_err { OnErr result (log.new.changes.items ≡ log.old.changes.items) }
    ensures size { length bytes.now ≡ 256 }
    ensures bytes { AreBytes bytes.now }
    ensures all { All IsPage pages.old.items → All IsPage pages.new.items }
    ensures full { is_err result ≡ nat_le log.old.program_room log.old.programs }
    ensures counted { OnOk result (log.new.programs ≡ log.old.programs + 1) }
    ensures uncounted { OnErr result (log.new.programs ≡ log.old.programs) }
    ensures sends { log.new.sends ≡ log.old.sends }
    ensures room { log.new.program_room ≡ log.old.program_room }
    ensures send_room { log.new.send_room ≡ log.old.send_room }
{
    if log.push_program(change).is_err() {
        return Err(Failed);
    }
    pages[page as usize] = *bytes;
    Ok(())
}

// Sends a piece, and keeps how much was sent before it. There is room for both.
fn append(sent: &mut Vec<u8>, log: &mut ChangeLog, piece: &[u8]) -> Result<(), Failed>
    requires some { 0 < length piece.now }
    requires within { length sent.old.items + length piece.now ≤ log.old.send_room }
    requires capacity { log.old.send_room ≤ vec_capacity sent.old }
    requires sends { log.old.sends ≤ length sent.old.items }
    ensures done { is_err result ≡ false }
    ensures capacity { vec_capacity sent.old ≤ vec_capacity sent.new }
    ensures sends { log.new.sends ≤ length sent.new.items }
    ensures programs { log.new.programs ≡ log.old.programs }
    ensures room { log.new.program_room ≡ log.old.program_room }
    ensures send_room { log.new.send_room ≡ log.old.send_room }
    ensures sent { OnOk result (sent.new.items ≡ sent.old.items ++ piece.now) }
    ensures log { OnOk result (log.new.changes.items
        ≡ log.old.changes.items ++ Change.SentSoFar (length sent.old.items) ∷ []) }
    ensures sent_err { OnErr result (sent.new.items ≡ sent.old.items) }
    ensures log_err { OnErr result (log.new.changes.items ≡ log.old.changes.items) }
{
    let before = sent.len();
    if sent.extend_from_slice(piece).is_err() {
        return Err(Failed);
    }
    if log.push_sent(before).is_err() {
        sent.truncate(before);
        return Err(Failed);
    }
    Ok(())
}

impl Board for MemoryBoard {
    ghost use Rattle.flash_pages.specs.Memory.{memory_view};
    ghost use Rattle.flash_pages.specs.Plan.{ReadsByPlan, ProgramsByPlan, ReceivesByPlan, SendsByPlan};

    ghost view = { memory_view };

    fn ext_read(&mut self, page: u16, into: &mut [u8; 256]) -> Result<(), Failed>
        requires { page < 2048 }
        ensures page { OnOk result (Told (memory_view self.old) (λ s.
            into.new ≡ page_at s (Ext page))) }
        ensures size { length into.new ≡ 256 }
        ensures reads { Reads (memory_view self.old) (memory_view self.new) }
        ensures faults { FlashFaults result (memory_view self.old) (memory_view self.new) }
        ensures plan { ReadsByPlan (is_err result) self.old self.new }
    {
        if fails(&self.plan, &mut self.calls, self.stopped) {
            self.flash_faults = raised(self.flash_faults);
            return Err(Failed);
        }
        *into = self.ext[page as usize];
        Ok(())
    }

    fn ext_program(&mut self, page: u16, from: &[u8; 256]) -> Result<(), Failed>
        requires { page < 2048 }
        ensures ok { OnOk result (
            IsProgrammed (Ext page) from.now (memory_view self.old) (memory_view self.new)) }
        ensures programs { Programs always (Ext page)
            (memory_view self.old) (memory_view self.new) }
        ensures faults { FlashFaults result (memory_view self.old) (memory_view self.new) }
        ensures plan { ProgramsByPlan (Ext page) from.now (is_err result) self.old self.new }
    {
        if fails(&self.plan, &mut self.calls, self.stopped) {
            self.flash_faults = raised(self.flash_faults);
            return Err(Failed);
        }
        let stops = is_next(self.plan.stop_at, self.log.program_count());
        let bytes = written(&self.plan, stops, from);
        let change = Change::ExtHeld(page, self.ext[page as usize]);
        if replace(&mut self.ext, &mut self.log, page, &bytes, change).is_err() {
            self.flash_faults = raised(self.flash_faults);
            return Err(Failed);
        }
        if stops {
            self.stopped = true;
            self.flash_faults = raised(self.flash_faults);
            return Err(Failed);
        }
        Ok(())
    }

    fn prog_read(&mut self, page: u16, into: &mut [u8; 256]) -> Result<(), Failed>
        requires { page < 480 }
        ensures page { OnOk result (Told (memory_view self.old) (λ s.
            into.new ≡ page_at s (Prog page))) }
        ensures size { length into.new ≡ 256 }
        ensures reads { Reads (memory_view self.old) (memory_view self.new) }
        ensures faults { FlashFaults result (memory_view self.old) (memory_view self.new) }
        ensures plan { ReadsByPlan (is_err result) self.old self.new }
    {
        if fails(&self.plan, &mut self.calls, self.stopped) {
            self.flash_faults = raised(self.flash_faults);
            return Err(Failed);
        }
        *into = self.prog[page as usize];
        Ok(())
    }

    fn prog_program(&mut self, page: u16, from: &[u8; 256]) -> Result<(), Failed>
        requires { page < 480 }
        ensures ok { OnOk result (
            IsProgrammed (Prog page) from.now (memory_view self.old) (memory_view self.new)) }
        ensures programs { Programs always (Prog page)
            (memory_view self.old) (memory_view self.new) }
        ensures faults { FlashFaults result (memory_view self.old) (memory_view self.new) }
        ensures plan { ProgramsByPlan (Prog page) from.now (is_err result) self.old self.new }
    {
        if fails(&self.plan, &mut self.calls, self.stopped) {
            self.flash_faults = raised(self.flash_faults);
            return Err(Failed);
        }
        let stops = is_next(self.plan.stop_at, self.log.program_count());
        let bytes = written(&self.plan, stops, from);
        let change = Change::ProgHeld(page, self.prog[page as usize]);
        if replace(&mut self.prog, &mut self.log, page, &bytes, change).is_err() {
            self.flash_faults = raised(self.flash_faults);
            return Err(Failed);
        }
        if stops {
            self.stopped = true;
            self.flash_faults = raised(self.flash_faults);
            return Err(Failed);
        }
        Ok(())
    }

    fn receive(&mut self, into: &mut [u8]) -> Result<usize, Failed>
        ensures ok { IfOk result (λ count.
            Receives count into.old into.new (memory_view self.old) (memory_view self.new)) }
        ensures left { OnErr result ((memory_view self.new).left ≡ (memory_view self.old).left) }
        ensures line { UsesLine (λ s x. x ≡ s) (memory_view self.old) (memory_view self.new) }
        ensures state { (memory_view self.new).state ≡ (memory_view self.old).state }
        ensures faults { LineFaults result (memory_view self.old) (memory_view self.new) }
        ensures plan { ReceivesByPlan result (length into.old) self.old self.new }
    {
        if fails(&self.plan, &mut self.calls, self.stopped) {
            self.line_faults = raised(self.line_faults);
            return Err(Failed);
        }
        let most = into.len().min(self.plan.chunk as usize);
        let count = most.min(self.input.len() - self.taken);
        into[..count].copy_from_slice(&self.input[self.taken..self.taken + count]);
        self.taken += count;
        Ok(count)
    }

    fn send(&mut self, from: &[u8]) -> Result<usize, Failed>
        ensures ok { IfOk result (λ count.
            Sends count from.now (memory_view self.old) (memory_view self.new)) }
        ensures part { OnErr result (Told (memory_view self.old) (λ s.
            (x : State) × ((memory_view self.new).state ≡ Some x) × SendsPart from.now s x)) }
        ensures line { UsesLine (SendsPart from.now)
            (memory_view self.old) (memory_view self.new) }
        ensures left { (memory_view self.new).left ≡ (memory_view self.old).left }
        ensures faults { LineFaults result (memory_view self.old) (memory_view self.new) }
        ensures plan { SendsByPlan result from.now self.old self.new }
    {
        if fails(&self.plan, &mut self.calls, self.stopped) {
            self.line_faults = raised(self.line_faults);
            return Err(Failed);
        }
        if from.is_empty() {
            return Ok(0);
        }
        if from.len() > self.sent_room as usize - self.sent.len() {
            self.line_faults = raised(self.line_faults);
            return Err(Failed);
        }
        if append(&mut self.sent, &mut self.log, from).is_err() {
            self.line_faults = raised(self.line_faults);
            return Err(Failed);
        }
        Ok(from.len())
    }
}
