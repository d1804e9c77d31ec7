//! A release server over a TCP port and a database file: `release_server ADDRESS DATABASE [--connections NUMBER]`.
//!
//! ADDRESS is bound for the first connection, and DATABASE is opened for the first request that needs it. The server serves one connection
//! after the other, and ends when it has served as many as it was asked to. It prints nothing to standard output. The exit status is that
//! of the server, 64 with a line on standard error where the words are not these, or 1 where there is no memory for them.
#![tactic(auto)]

ghost use Rattle.std.specs.Prelude.{◌≡◌, ◌≢◌, ◌⊎◌, [], map};
ghost use Rattle.clap.specs.Words.{fault_of};
ghost use Rattle.server_words.specs.Words.{server_app};
ghost use Rattle.server_loop.specs.Serving.{IsStatus};

use server_loop::server_main;
use server_words::WordsFault;
use sqlite_keeper::SqliteKeeper;
use std::convert::AsStr;
use std::process::ExitCode;
use std::{env, io};
use tcp_connections::TcpConnections;

// The status of a server at this address over this database, which is closed at the end.
fn serve<'a, S: AsStr>(rt: &HostRuntime, address: &str, database: &str, words: &'a [S]) -> u8
    ensures statuses { IsStatus result }
    ensures refused { result ≡ 64 → fault_of server_app (map S.text words.entry.now) ≢ [] }
    ensures accepted { (result ≡ 0) ⊎ (result ≡ 5) → fault_of server_app (map S.text words.entry.now) ≡ [] }
{
    let mut connections = TcpConnections::at(rt, address);
    let mut keeper = SqliteKeeper::at(rt, rt.alloc(), database);
    let status = server_main(rt.alloc(), words, &mut connections, &mut keeper);
    // Where this fails, what was answered is on the disk all the same, in the log beside the file.
    let _ = keeper.close();
    status
}

// The status of the server that the arguments ask for.
fn status(rt: &HostRuntime) -> io::Result<u8> {
    let arguments: Vec<String> = env::args(rt)?.skip(1).collect(rt.alloc())?;
    match arguments.as_slice() {
        [address, database, words @ ..] => {
            Ok(serve(rt, address.as_str(), database.as_str(), words))
        }
        // Words that no command takes, so that the server refuses them.
        _ => Ok(serve(rt, "", "", ["--", "x"].as_slice())),
    }
}

fn main(rt: HostRuntime) -> ExitCode {
    match status(&rt) {
        Ok(64) => {
            let _ = eprintln!(rt; "{}", WordsFault::Refused);
            ExitCode::from(64)
        }
        Ok(status) => ExitCode::from(status),
        Err(_) => ExitCode::from(1),
    }
}
