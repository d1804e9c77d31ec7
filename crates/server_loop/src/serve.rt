//! From the words to the status.
ghost use Rattle.std.specs.Prelude.{◌≡◌, ◌≢◌, ◌≤◌, ◌<◌, ◌⊎◌, ℕ, [], map, OnOk, OnErr, Ok, Err};
ghost use Rattle.clap.specs.Words.{fault_of};
ghost use Rattle.server_words.specs.Words.{server_app};
ghost use Rattle.http_edges.specs.Edge.{Counts, Rose};
ghost use Rattle.http_listeners.specs.Listener.{TakesNone};
ghost use Rattle.server_loop.specs.Serving.{Serves, ServesAll, ServesFewer, IsUntouched, IsStatus};

use http_edges::Failed;
use http_listeners::Listener;
use http_releases::serve_connection;
use release_keeper::Keeper;
use server_words::{WordsFault, connections};
use std::alloc::Global;
use std::convert::AsStr;

// Accepts the next connection, serves it and finishes it.
fn serve_next<L: Listener, Q: Keeper>(
    alloc: Global,
    listener: &mut L,
    keeper: &mut Q,
) -> Result<(), Failed>
    ensures served { OnOk result (Serves 1 (L.view listener.old) (L.view listener.new) (Q.view keeper.old) (Q.view keeper.new)) }
    ensures none { OnErr result (TakesNone (L.view listener.old) (L.view listener.new)) }
    ensures kept { OnErr result (Q.view keeper.new ≡ Q.view keeper.old) }
    ensures counts { Counts (L.view listener.old).faults (L.view listener.new).faults result }
    ensures unfinished { (L.view listener.new).unfinished ≡ (L.view listener.old).unfinished }
{
    let Ok(mut conn) = listener.accept() else {
        return Err(Failed);
    };
    let _ = serve_connection(alloc, &mut conn.input, &mut conn.output, keeper);
    listener.finish(conn);
    Ok(())
}

// Serves so many connections, one after another, until the listener fails.
fn serve_all<L: Listener, Q: Keeper>(
    alloc: Global,
    count: u32,
    listener: &mut L,
    keeper: &mut Q,
) -> Result<(), Failed>
    ensures all { OnOk result (Serves count (L.view listener.old) (L.view listener.new) (Q.view keeper.old) (Q.view keeper.new)) }
    ensures fewer { OnErr result ((done : ℕ) × (done < count) × Serves done (L.view listener.old) (L.view listener.new) (Q.view keeper.old) (Q.view keeper.new)) }
    ensures counts { Counts (L.view listener.old).faults (L.view listener.new).faults result }
    ensures unfinished { (L.view listener.new).unfinished ≡ (L.view listener.old).unfinished }
{
    let mut done = 0;
    while done < count {
        let Ok(()) = serve_next(alloc, listener, keeper) else {
            return Err(Failed);
        };
        done += 1;
    }
    Ok(())
}

/// Serves as many connections as the words say, one after another, and answers the exit status. The words are those after the address and the
/// database.
///
/// 0: all were served and finished. 1: there was no memory to read the words. 5: the listener failed before all were accepted; those that were are
/// finished. 64: the words are not those of the command. With 1 and 64 neither the listener nor the keeper is called.
pub fn server_main<'a, S: AsStr, L: Listener, Q: Keeper>(
    alloc: Global,
    words: &'a [S],
    listener: &mut L,
    keeper: &mut Q,
) -> u8
    ensures statuses { IsStatus result }
    ensures refused { result ≡ 64 → fault_of server_app (map S.text words.entry.now) ≢ [] }
    ensures accepted { (result ≡ 0) ⊎ (result ≡ 5) → fault_of server_app (map S.text words.entry.now) ≡ [] }
    ensures untouched { (result ≡ 1) ⊎ (result ≡ 64) → IsUntouched (L.view listener.old) (L.view listener.new) (Q.view keeper.old) (Q.view keeper.new) }
    ensures calm { result ≡ 0 → (L.view listener.new).faults ≡ (L.view listener.old).faults }
    ensures fault { result ≡ 5 → Rose (L.view listener.old).faults (L.view listener.new).faults }
    ensures unfinished { (L.view listener.new).unfinished ≡ (L.view listener.old).unfinished }
    ensures all { result ≡ 0 → ServesAll (map S.text words.entry.now) (L.view listener.old) (L.view listener.new) (Q.view keeper.old) (Q.view keeper.new) }
    ensures fewer { result ≡ 5 → ServesFewer (map S.text words.entry.now) (L.view listener.old) (L.view listener.new) (Q.view keeper.old) (Q.view keeper.new) }
{
    let count = match connections(alloc, words) {
        Ok(count) => count,
        Err(WordsFault::Memory) => return 1,
        Err(WordsFault::Refused) => return 64,
    };
    match serve_all(alloc, count, listener, keeper) {
        Ok(()) => 0,
        Err(Failed) => 5,
    }
}
