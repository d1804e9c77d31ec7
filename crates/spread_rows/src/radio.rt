//! Three nodes on a radio that loses messages.

use crate::nodes::{
    Peer, Published, hear, holder, is_right_peer, message_in, newcomer, release, told,
};
use spread_core::Message;
use std::alloc::Global;
use std::test::Fail;

// What may happen to three nodes.
#[derive(Clone, Copy)]
enum Event {
    // Node 0 publishes release 2.
    Publishes,
    // A node's clock ticks.
    Ticks(usize),
    // A node hears one of the messages that were ever sent, by its number.
    Hears(usize, usize),
}

use Event::{Hears, Publishes, Ticks};

// Nodes 0 and 2 don't hear each other. Messages are lost, heard twice and heard late; node 1 has a page of release 1 when release 2 comes,
// and another one of release 1 comes late.
const LOSSY: [Event; 59] = [
    Ticks(0),
    Hears(1, 0),
    Hears(2, 1),
    Hears(0, 1),
    Hears(1, 2),
    Hears(1, 2),
    Ticks(1),
    Hears(1, 3),
    Ticks(0),
    Hears(1, 4),
    Hears(2, 5),
    Hears(0, 5),
    Ticks(0),
    Hears(1, 7),
    Hears(0, 8),
    Hears(2, 8),
    Hears(1, 9),
    Ticks(0),
    Hears(1, 10),
    Publishes,
    Ticks(0),
    Hears(1, 12),
    Hears(0, 13),
    Hears(0, 4),
    Hears(1, 14),
    Hears(1, 15),
    Hears(2, 16),
    Hears(0, 16),
    Hears(2, 16),
    Hears(1, 17),
    Ticks(1),
    Hears(0, 18),
    Ticks(0),
    Hears(1, 19),
    Hears(2, 20),
    Hears(0, 20),
    Hears(1, 21),
    Hears(1, 6),
    Ticks(0),
    Hears(1, 22),
    Hears(0, 23),
    Hears(1, 24),
    Ticks(1),
    Hears(2, 25),
    Hears(1, 26),
    Hears(2, 27),
    Ticks(1),
    Hears(2, 28),
    Hears(1, 29),
    Hears(1, 29),
    Hears(2, 30),
    Ticks(1),
    Hears(2, 32),
    Hears(1, 33),
    Hears(2, 34),
    Ticks(1),
    Hears(2, 35),
    Hears(1, 36),
    Hears(2, 37),
];

// The first release, which node 0 has from the beginning, and the second, which it publishes.
#[derive(Drop)]
struct Releases {
    first: Published,
    second: Published,
}

fn both_releases(alloc: Global) -> Result<Releases, Fail> {
    Ok(Releases {
        first: release(alloc, 1, 600)?,
        second: release(alloc, 2, 300)?,
    })
}

// A node hears a message that was sent.
fn hear_frame(
    alloc: Global,
    peer: &mut Peer,
    frame: [u8; 616],
    sent: &mut Vec<[u8; 616]>,
) -> Result<(), Fail> {
    match message_in(&frame) {
        Some(m) => hear(alloc, peer, &m, sent),
        None => Ok(()),
    }
}

// Lets an event happen.
fn happen(
    alloc: Global,
    event: Event,
    second: &Published,
    peers: &mut [Peer],
    sent: &mut Vec<[u8; 616]>,
) -> Result<(), Fail> {
    match event {
        Publishes => {
            if let Some(peer) = peers.get_mut(0) {
                *peer = holder(alloc, second)?;
            }
            Ok(())
        }
        Ticks(node) => match peers.get_mut(node) {
            Some(peer) => hear(alloc, peer, &Message::Tick, sent),
            None => Ok(()),
        },
        Hears(node, message) => match (peers.get_mut(node), sent.as_slice().get(message)) {
            (Some(peer), Some(frame)) => {
                let frame = *frame;
                hear_frame(alloc, peer, frame, sent)
            }
            _ => Ok(()),
        },
    }
}

fn is_heard(event: Event) -> bool {
    match event {
        Hears(_, _) => true,
        _ => false,
    }
}

fn are_right(peers: &[Peer], releases: &Releases) -> bool {
    for peer in peers {
        if !is_right_peer(peer, &releases.first, &releases.second) {
            return false;
        }
    }
    true
}

// Lets these events happen, without every second message that is heard where `drops` says so. Answers whether each page that a node stored
// was right behind each event.
fn are_right_throughout(
    alloc: Global,
    events: &[Event],
    drops: bool,
    releases: &Releases,
    peers: &mut [Peer],
) -> Result<bool, Fail> {
    let mut sent = Vec::new(alloc);
    let mut heard = 0u32;
    for event in events {
        if is_heard(*event) {
            heard = heard.wrapping_add(1);
        }
        if !(drops && is_heard(*event) && heard % 2 == 0) {
            happen(alloc, *event, &releases.second, peers, &mut sent)?;
        }
        if !are_right(peers, releases) {
            return Ok(false);
        }
    }
    Ok(true)
}

// For each node at the end its release, its whole components and how many pages it stored; `None` where a page was wrong.
fn ends(
    alloc: Global,
    events: &[Event],
    drops: bool,
) -> Result<Option<[(u32, u16, usize); 3]>, Fail> {
    let releases = both_releases(alloc)?;
    let mut peers = [
        holder(alloc, &releases.first)?,
        newcomer(alloc),
        newcomer(alloc),
    ];
    if !are_right_throughout(alloc, events, drops, &releases, &mut peers)? {
        return Ok(None);
    }
    Ok(Some([told(&peers[0]), told(&peers[1]), told(&peers[2])]))
}

#[test]
fn three_nodes_on_a_lossy_radio(rt: HostRuntime) -> Result<(), Fail> {
    let want = [(2, 3, 3), (2, 3, 3), (2, 3, 3)];
    assert_eq!(rt; ends(rt.alloc(), &LOSSY, false)?, Some(want));
    Ok(())
}

#[test]
fn three_nodes_that_miss_every_second_message(rt: HostRuntime) -> Result<(), Fail> {
    let want = [(2, 3, 3), (1, 0, 1), (0, 0, 0)];
    assert_eq!(rt; ends(rt.alloc(), &LOSSY, true)?, Some(want));
    Ok(())
}
