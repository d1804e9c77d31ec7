//! Commands and questions in a row through decisions and changes, and each call on the rows failing once.

ghost use Rattle.std.specs.Prelude.{◌≡◌, ◌≤◌, true};
ghost use Rattle.release_rules.specs.Deciding.{IsAllowed, IsSafely};

use crate::objects::{Object, object_file};
use component_package::Text;
use http_bodies::refusal_body;
use release_keeper::{Keeper, MemoryKeeper};
use release_rows::{Command, Part, Parts, RowsFault};
use release_rules::{Decision, decide, mote_body};
use std::alloc::{AllocError, Global};

#[derive(Clone, Copy)]
enum Question {
    Version(&'static str, Object),
    // A mote, and parts: the first letter of a name and a digit for the version each, as `s1r2`.
    Release(&'static str, &'static [u8]),
    Acknowledge(&'static str, u32),
    Mote(&'static str),
}

// A question, a command under a key with a digest of this byte, and the answer.
#[derive(Clone, Copy)]
struct Row {
    key: &'static str,
    digest: u8,
    question: Question,
    answer: &'static str,
}

const ROWS: [Row; 22] = [
    Row {
        key: "a",
        digest: 1,
        question: Question::Version("sender", Object::Sender),
        answer: "201 {\"component\":1,\"length\":102,\"sha256\":\"1d72fcf0ea1364c4b9d4f7af020ed3773394bd3dd791b00054d2cbf34e9452b7\",\"version\":1}",
    },
    Row {
        key: "b",
        digest: 2,
        question: Question::Release("m1", b"s1"),
        answer: "422 {\"refusal\":306,\"values\":[0,2,18]}",
    },
    Row {
        key: "c",
        digest: 3,
        question: Question::Version("radio", Object::Radio),
        answer: "201 {\"component\":2,\"length\":40,\"sha256\":\"4466e9e86ad5824a3d59cadfaa10e4d47f27dfa122e530f503d344da72717e18\",\"version\":1}",
    },
    Row {
        key: "",
        digest: 0,
        question: Question::Mote("m1"),
        answer: "404",
    },
    // what was refused has kept no key
    Row {
        key: "b",
        digest: 4,
        question: Question::Release("m1", b"s1r1"),
        answer: "201 {\"mote\":\"m1\",\"release\":1}",
    },
    Row {
        key: "",
        digest: 0,
        question: Question::Mote("m1"),
        answer: "200 {\"acknowledged\":0,\"components\":[[\"sender\",1],[\"radio\",1]],\"mote\":\"m1\",\"release\":1}",
    },
    Row {
        key: "d",
        digest: 5,
        question: Question::Acknowledge("m1", 1),
        answer: "201 {\"acknowledged\":1,\"mote\":\"m1\"}",
    },
    Row {
        key: "d",
        digest: 5,
        question: Question::Acknowledge("m1", 1),
        answer: "again {\"acknowledged\":1,\"mote\":\"m1\"}",
    },
    Row {
        key: "d",
        digest: 6,
        question: Question::Acknowledge("m1", 9),
        answer: "409 5",
    },
    Row {
        key: "",
        digest: 0,
        question: Question::Mote("m1"),
        answer: "200 {\"acknowledged\":1,\"components\":[[\"sender\",1],[\"radio\",1]],\"mote\":\"m1\",\"release\":1}",
    },
    Row {
        key: "e",
        digest: 7,
        question: Question::Version("sender", Object::Sender),
        answer: "201 {\"component\":1,\"length\":102,\"sha256\":\"9a49cf15db95d26ffe0ddf217090fd46ccbb48fced94762e2b6db29129b1eac0\",\"version\":2}",
    },
    Row {
        key: "f",
        digest: 8,
        question: Question::Release("m1", b"r1s2"),
        answer: "201 {\"mote\":\"m1\",\"release\":2}",
    },
    Row {
        key: "g",
        digest: 9,
        question: Question::Acknowledge("m1", 2),
        answer: "201 {\"acknowledged\":2,\"mote\":\"m1\"}",
    },
    Row {
        key: "h",
        digest: 10,
        question: Question::Acknowledge("m1", 1),
        answer: "422 {\"refusal\":55,\"values\":[2]}",
    },
    Row {
        key: "d",
        digest: 5,
        question: Question::Acknowledge("m1", 1),
        answer: "again {\"acknowledged\":1,\"mote\":\"m1\"}",
    },
    Row {
        key: "h",
        digest: 10,
        question: Question::Acknowledge("m1", 3),
        answer: "404",
    },
    Row {
        key: "h",
        digest: 10,
        question: Question::Acknowledge("m2", 1),
        answer: "404",
    },
    Row {
        key: "h",
        digest: 10,
        question: Question::Release("m1", b"s3"),
        answer: "404",
    },
    Row {
        key: "h",
        digest: 10,
        question: Question::Release("m1", b"r1n1"),
        answer: "404",
    },
    Row {
        key: "h",
        digest: 10,
        question: Question::Release("m1", b"s1s2"),
        answer: "404",
    },
    Row {
        key: "h",
        digest: 10,
        question: Question::Version("cut", Object::Cut),
        answer: "422 {\"refusal\":105,\"values\":[32]}",
    },
    Row {
        key: "",
        digest: 0,
        question: Question::Mote("m1"),
        answer: "200 {\"acknowledged\":2,\"components\":[[\"radio\",1],[\"sender\",2]],\"mote\":\"m1\",\"release\":2}",
    },
];

// How many calls on the rows the answers to all questions take.
const CALLS: u32 = 86;

fn text(alloc: Global, text: &str) -> Result<Text, AllocError> {
    Ok(Text::of(String::from_str(alloc, text)?))
}

fn part(alloc: Global, letter: u8, digit: u8) -> Result<Part, AllocError> {
    let name = match letter {
        b's' => "sender",
        b'r' => "radio",
        _ => "nobody",
    };
    Ok(Part {
        component: text(alloc, name)?,
        version: digit.saturating_sub(b'0') as u16,
    })
}

fn parts(alloc: Global, letters: &[u8]) -> Result<Parts, AllocError> {
    let mut parts = Vec::new(alloc);
    for pair in letters.chunks_exact(2) {
        if let [letter, digit] = pair {
            parts.push(part(alloc, *letter, *digit)?)?;
        }
    }
    Ok(Parts::of(parts))
}

// Does what is accepted, and shows what was decided.
fn act(alloc: Global, keeper: &mut MemoryKeeper, decision: Decision) -> Result<String, RowsFault>
    requires { IsSafely decision }
{
    let shown = match decision {
        Decision::Accepted(change) => {
            keeper.apply(&change)?;
            format!(in alloc; "201 {}", change.key.body.as_str())?
        }
        Decision::Repeated(body) => format!(in alloc; "again {}", body.as_str())?,
        Decision::KeyTaken(digest) => format!(in alloc; "409 {}", digest[0])?,
        Decision::NoRow => String::from_str(alloc, "404")?,
        Decision::Refused { number, values } => {
            let body = refusal_body(alloc, number, values.as_slice())?;
            format!(in alloc; "422 {body}")?
        }
    };
    Ok(shown)
}

// Whether a command may be decided.
fn is_allowed(command: &Command) -> bool
    ensures { result ≡ true → IsAllowed command.now }
{
    match command {
        Command::AddVersion { object, .. } => object.as_slice().len() <= 262_144,
        Command::AddRelease { parts, .. } => is_short(parts.as_slice().len()),
        Command::Acknowledge { .. } => true,
    }
}

fn is_short(count: usize) -> bool
    ensures { result ≡ true → (1 ≤ count) × (count ≤ 16) }
{
    1 <= count && count <= 16
}

fn command(
    alloc: Global,
    keeper: &mut MemoryKeeper,
    row: &Row,
    command: &Command,
) -> Result<String, RowsFault> {
    if !is_allowed(command) {
        return Ok(String::from_str(alloc, "not allowed")?);
    }
    let decision = decide(alloc, keeper, row.key, &[row.digest; 32], command)?;
    act(alloc, keeper, decision)
}

// The answer to a question, after which what it accepted is done.
fn ask(alloc: Global, keeper: &mut MemoryKeeper, row: &Row) -> Result<String, RowsFault> {
    let asked = match row.question {
        Question::Version(name, which) => Command::AddVersion {
            component: text(alloc, name)?,
            object: object_file(alloc, which)?,
        },
        Question::Release(mote, letters) => Command::AddRelease {
            mote: text(alloc, mote)?,
            parts: parts(alloc, letters)?,
        },
        Question::Acknowledge(mote, release) => Command::Acknowledge {
            mote: text(alloc, mote)?,
            release,
        },
        Question::Mote(mote) => {
            return match mote_body(alloc, keeper, mote)? {
                Some(body) => Ok(format!(in alloc; "200 {}", body.as_str())?),
                None => Ok(String::from_str(alloc, "404")?),
            };
        }
    };
    command(alloc, keeper, row, &asked)
}

fn is_text(answer: String, wanted: &str) -> bool {
    answer.as_str() == wanted
}

// Whether a question has its answer.
fn is_answered(alloc: Global, keeper: &mut MemoryKeeper, row: &Row) -> Result<bool, RowsFault> {
    let answer = ask(alloc, keeper, row)?;
    Ok(is_text(answer, row.answer))
}

// Asks, and asks again where a call failed. Whether one did, where the answer is then the wanted one; none where it isn't.
fn has_failed(
    alloc: Global,
    keeper: &mut MemoryKeeper,
    row: &Row,
) -> Result<Option<bool>, RowsFault> {
    match is_answered(alloc, keeper, row) {
        Ok(true) => Ok(Some(false)),
        Ok(false) => Ok(None),
        Err(_) => Ok(if is_answered(alloc, keeper, row)? {
            Some(true)
        } else {
            None
        }),
    }
}

// How many of all questions failed at first, where each then has its answer; none where one hasn't.
fn failures_over(
    alloc: Global,
    keeper: &mut MemoryKeeper,
    rows: &[Row],
) -> Result<Option<u32>, RowsFault> {
    let mut failures = 0u32;
    for row in rows {
        match has_failed(alloc, keeper, row)? {
            Some(true) => failures = failures.saturating_add(1),
            Some(false) => {}
            None => return Ok(None),
        }
    }
    Ok(Some(failures))
}

fn failures(alloc: Global, rows: &[Row], failing: u32) -> Result<Option<u32>, RowsFault> {
    let mut keeper = MemoryKeeper::new(alloc, Vec::from_array(alloc, [failing])?);
    failures_over(alloc, &mut keeper, rows)
}

// Whether each call fails once, and none behind the last.
fn each_fails(alloc: Global, rows: &[Row]) -> Result<bool, RowsFault> {
    for failing in 1..CALLS + 1 {
        if failures(alloc, rows, failing)? != Some(1) {
            return Ok(false);
        }
    }
    Ok(failures(alloc, rows, CALLS + 1)? == Some(0))
}

// No call has the number 0.
#[test]
fn questions_have_their_answers(rt: HostRuntime) {
    assert_eq!(rt; failures(rt.alloc(), &ROWS, 0), Ok(Some(0)));
}

#[test]
fn each_call_fails_once(rt: HostRuntime) {
    assert_eq!(rt; each_fails(rt.alloc(), &ROWS), Ok(true));
}
