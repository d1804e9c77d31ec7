//! Calls of the board that fail once.

ghost use Rattle.flash_pages.specs.Memory.{memory_view};

use crate::worked::{
    Consequence, after, command, faultless, formatted, pair, session, update, updated,
};
use flash_pages::{Board, Failed, MemoryBoard};
use std::alloc::{AllocError, Global};
use std::test::Fail;

// The calls of a board.
#[derive(Clone, Copy, PartialEq, Eq)]
enum Call {
    ExtRead,
    ExtProgram,
    ProgRead,
    ProgProgram,
    Receive,
    Send,
}

// A board in memory that notes its calls.
#[derive(Drop)]
struct TracedBoard {
    board: MemoryBoard,
    calls: Vec<Call>,
}

impl Board for TracedBoard {
    ghost view = { λ b. memory_view b.board };

    fn ext_read(&mut self, page: u16, into: &mut [u8; 256]) -> Result<(), Failed> {
        let _noted = self.calls.push(Call::ExtRead);
        self.board.ext_read(page, into)?;
        Ok(())
    }

    fn ext_program(&mut self, page: u16, from: &[u8; 256]) -> Result<(), Failed> {
        let _noted = self.calls.push(Call::ExtProgram);
        self.board.ext_program(page, from)?;
        Ok(())
    }

    fn prog_read(&mut self, page: u16, into: &mut [u8; 256]) -> Result<(), Failed> {
        let _noted = self.calls.push(Call::ProgRead);
        self.board.prog_read(page, into)?;
        Ok(())
    }

    fn prog_program(&mut self, page: u16, from: &[u8; 256]) -> Result<(), Failed> {
        let _noted = self.calls.push(Call::ProgProgram);
        self.board.prog_program(page, from)?;
        Ok(())
    }

    fn receive(&mut self, into: &mut [u8]) -> Result<usize, Failed> {
        let _noted = self.calls.push(Call::Receive);
        let count = self.board.receive(into)?;
        Ok(count)
    }

    fn send(&mut self, from: &[u8]) -> Result<usize, Failed> {
        let _noted = self.calls.push(Call::Send);
        let count = self.board.send(from)?;
        Ok(count)
    }
}

// The calls of a session on `input`, on a formatted board that took `before`.
fn traced(alloc: Global, before: &[u8], input: &[u8]) -> Result<Vec<Call>, Fail> {
    let (board, _) = session(alloc, formatted(alloc, 200)?, before, 1000)?;
    let mut board = TracedBoard {
        board: board.restart(alloc, input, faultless(alloc, 1000))?,
        calls: Vec::new(alloc),
    };
    command(alloc, &mut board, "run")?;
    let TracedBoard { calls, .. } = board;
    Ok(calls)
}

// The numbers of the calls of this kind that come when so many lines have been sent.
fn numbers(alloc: Global, calls: &[Call], lines: u32, kind: Call) -> Result<Vec<u32>, AllocError> {
    let mut found = Vec::new(alloc);
    let mut sent = 0u32;
    let mut number = 0u32;
    for call in calls {
        number = number.wrapping_add(1);
        if sent == lines && *call == kind {
            found.push(number)?;
        }
        if *call == Call::Send {
            sent = sent.wrapping_add(1);
        }
    }
    Ok(found)
}

// The first of some numbers, the one in the middle and the last; zeros where there is none.
fn three_of(found: &[u32]) -> [u32; 3] {
    let last = found.len().saturating_sub(1);
    let mut three = [0; 3];
    three[0] = found.get(0).copied().unwrap_or(0);
    three[1] = found.get(last / 2).copied().unwrap_or(0);
    three[2] = found.get(last).copied().unwrap_or(0);
    three
}

// A call that fails: whether the session is the first after a commit, how many lines it has sent before, and what kind of call it is; then the
// status, and the release that the next session starts.
type Row = (bool, u32, Call, u8, u8);

const ROWS: [Row; 21] = [
    // The start on an empty board, and the first frame.
    (false, 0, Call::ExtRead, 4, 0),
    (false, 0, Call::Send, 5, 0),
    (false, 1, Call::Receive, 5, 0),
    // LINK.
    (false, 4, Call::Receive, 5, 0),
    (false, 4, Call::ExtRead, 4, 0),
    (false, 4, Call::ExtProgram, 4, 0),
    (false, 4, Call::Send, 5, 0),
    // The line of COMMIT.
    (false, 5, Call::Send, 5, 1),
    // BOOT.
    (false, 6, Call::Receive, 5, 1),
    (false, 6, Call::ExtRead, 4, 1),
    (false, 6, Call::ExtProgram, 4, 1),
    (false, 6, Call::ProgRead, 4, 1),
    (false, 6, Call::ProgProgram, 4, 1),
    (false, 6, Call::Send, 5, 1),
    // The start where a commit stands.
    (true, 0, Call::ExtRead, 4, 1),
    (true, 0, Call::ExtProgram, 4, 1),
    (true, 0, Call::ProgRead, 4, 1),
    (true, 0, Call::ProgProgram, 4, 1),
    (true, 0, Call::Send, 5, 1),
    (true, 1, Call::Receive, 5, 1),
    // The line of MANIFEST.
    (false, 1, Call::Send, 5, 0),
];

// What a board takes before the session, and the session itself: nothing and a whole update, or an update up to COMMIT and nothing.
fn inputs(alloc: Global, is_committed: bool) -> Result<(Vec<u8>, Vec<u8>), AllocError> {
    if is_committed {
        let packages = pair(alloc)?;
        let commit = update(alloc, 1, packages.as_slice())?;
        return Ok((commit, Vec::new(alloc)));
    }
    let whole = updated(alloc)?;
    Ok((Vec::new(alloc), whole))
}

// What comes after a session in which the call of this number fails.
fn after_failure(
    alloc: Global,
    before: &[u8],
    input: &[u8],
    number: u32,
) -> Result<Consequence, Fail> {
    let mut plan = faultless(alloc, 1000);
    plan.fail.push(number)?;
    let found = after(alloc, before, input, plan)?;
    Ok(found)
}

// Whether this comes after each of the failures.
fn comes_after(
    alloc: Global,
    before: &[u8],
    input: &[u8],
    numbers: &[u32],
    wanted: Consequence,
) -> Result<bool, Fail> {
    for number in numbers {
        if after_failure(alloc, before, input, *number)? != wanted {
            return Ok(false);
        }
    }
    Ok(true)
}

// Whether a row's call is made at all, and what is wanted comes after its failures.
fn is_row(alloc: Global, row: Row) -> Result<bool, Fail> {
    let (is_committed, lines, kind, status, release) = row;
    let (before, input) = inputs(alloc, is_committed)?;
    let calls = traced(alloc, before.as_slice(), input.as_slice())?;
    let found = numbers(alloc, calls.as_slice(), lines, kind)?;
    if found.is_empty() {
        return Ok(false);
    }
    let three = three_of(found.as_slice());
    let wanted = Consequence {
        status,
        next: 0,
        release: Some(release),
        is_made_up: true,
    };
    let comes = comes_after(alloc, before.as_slice(), input.as_slice(), &three, wanted)?;
    Ok(comes)
}

// The first of these rows that is wrong.
fn wrong_row(alloc: Global, rows: &[Row]) -> Result<Option<usize>, Fail> {
    for (i, row) in rows.iter().enumerate() {
        if !is_row(alloc, *row)? {
            return Ok(Some(i));
        }
    }
    Ok(None)
}

#[test]
fn a_call_that_fails_once(rt: HostRuntime) -> Result<(), Fail> {
    assert_eq!(rt; wrong_row(rt.alloc(), &ROWS)?, None);
    Ok(())
}
