//! The words of `release_server`: how many connections it serves.
//!
//! There is one option, `--connections`, with a number from 1 to 1,000,000, and 1000 where it isn't given. Words that `clap`'s
//! definition of that command refuses are refused here, `--help` among them.
#![tactic(auto)]

ghost use Rattle.std.specs.Prelude.{◌≡◌, ◌≢◌, IfOk, map};
ghost use Rattle.clap.specs.Words.{HasMatchesOf, app_of, fault_of, kind_of};
ghost use Rattle.server_words.specs.Words.{Answers, Asks, server_app};
ghost use Rattle.server_words.specs.Offers.{HasNumber, Offers};

use clap::builder::ValueParser;
use clap::error::ErrorKind;
use clap::{Arg, ArgAction, ArgMatches, Command};
use std::alloc::{AllocError, Global};
use std::convert::AsStr;
use std::error::Error;
use std::fmt;

/// Why words give no number of connections.
#[derive(Clone, Copy, Debug, PartialEq, Eq)]
pub enum WordsFault {
    /// The words are not those of the command, or ask for help.
    Refused,
    /// There was no memory; this says nothing of the words.
    Memory,
}

impl fmt::Display for WordsFault {
    fn fmt<W: fmt::Write>(&self, f: &mut fmt::Formatter<W>) -> fmt::Result {
        match self {
            WordsFault::Refused => write!(
                f,
                "usage: release_server ADDRESS DATABASE [--connections NUMBER]"
            ),
            WordsFault::Memory => write!(f, "there is no memory"),
        }
    }
}

impl Error for WordsFault {}

// The command that the words are for.
fn server_command<'a>(alloc: Global) -> Result<Command<'a>, AllocError>
    ensures app { IfOk result (λ c. app_of c ≡ server_app) }
    ensures offers { IfOk result Offers }
{
    let option = Arg::new(alloc, "connections")
        .long("connections")
        .action(ArgAction::Set)
        .value_parser(ValueParser::unsigned(1, 1_000_000))
        .default_value("1000");
    Command::new(alloc, "release_server")
        .no_binary_name(true)
        .arg(option)
}

// What a refusal of the words is.
fn fault_from(error: &clap::Error) -> WordsFault
    ensures { result ≡ WordsFault.Refused → kind_of error.now ≢ ErrorKind.OutOfMemory }
{
    match error.kind() {
        ErrorKind::OutOfMemory => WordsFault::Memory,
        _ => WordsFault::Refused,
    }
}

// What the command makes of the words.
fn server_matches<'a, S: AsStr>(alloc: Global, words: &'a [S]) -> Result<ArgMatches<'a>, WordsFault>
    ensures answer { Answers (fault_of server_app (map S.text words.entry.now)) result }
    ensures matches { IfOk result (HasMatchesOf server_app (map S.text words.entry.now)) }
    ensures number { IfOk result HasNumber }
{
    let Ok(command) = server_command(alloc) else {
        return Err(WordsFault::Memory);
    };
    match command.try_get_matches_from(words) {
        Ok(matches) => Ok(matches),
        Err(error) => Err(fault_from(&error)),
    }
}

/// How many connections the words after the address and the database ask for.
pub fn connections<'a, S: AsStr>(alloc: Global, words: &'a [S]) -> Result<u32, WordsFault>
    ensures answer { Answers (fault_of server_app (map S.text words.entry.now)) result }
    ensures asks { IfOk result (Asks (map S.text words.entry.now)) }
{
    let matches = server_matches(alloc, words)?;
    let count = matches.get_one::<u64>("connections").unwrap();
    Ok(count as u32)
}
