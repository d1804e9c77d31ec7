//! Nodes that carry their steps out.

ghost use Rattle.std.specs.Prelude.{IfOk, IfSome};
ghost use Rattle.spread_core.specs.Hearing.{IsNodeManifest, OffersRelease};
ghost use Rattle.spread_core.specs.MessageFrames.{IsMessage};
ghost use Rattle.spread_core.specs.Causes.{MayBeDone};

use crate::frames::manifest_of;
use sha2::{Digest, Sha256};
use spread_core::{Message, Node, Step, read_message, write_message};
use std::alloc::{AllocError, Global};
use std::marker::Model;
use std::test::Fail;

// A node that may hear messages.
#[derive(Drop)]
struct Listener {
    node: Node,
}

impl Model for Listener {
    ghost use Rattle.spread_core.specs.declared.node.Node.{Node};
    ghost use Rattle.spread_core.specs.Hearing.{IsNodeManifest};

    ghost Value = { Node };

    ghost view = { λ l. l.node };

    ghost invariant = { λ l. IsNodeManifest l.node.manifest };
}

impl Listener {
    fn new(node: Node) -> Self
        requires { IsNodeManifest node.manifest }
    {
        Listener { node }
    }

    fn node(&self) -> Node
        ensures { IsNodeManifest result.manifest }
    {
        self.node
    }
}

/// A release's packages, and a node that has them.
#[derive(Drop)]
pub struct Published {
    holder: Listener,
    packages: Vec<Vec<u8>>,
}

// So many bytes, others for each seed.
fn package(alloc: Global, seed: u8, size: usize) -> Result<Vec<u8>, AllocError> {
    let mut bytes = Vec::new(alloc);
    let mut byte = seed;
    for _ in 0..size {
        byte = byte.wrapping_mul(5).wrapping_add(seed);
        bytes.push(byte)?;
    }
    Ok(bytes)
}

/// A release of two components, the first with this many bytes and the second with 40.
pub fn release(alloc: Global, number: u8, size: u16) -> Result<Published, Fail> {
    let mut packages = Vec::new(alloc);
    let mut bytes = vec![in alloc; number, 0, 0, 0, 2]?;
    for (component, seed, size) in [(1, number, size), (2, 7, 40)] {
        let package = package(alloc, seed, size as usize)?;
        let [low, high] = size.to_le_bytes();
        bytes.extend_from_slice(&[component, 0, number, 0, low, high])?;
        bytes.extend_from_slice(&Sha256::digest(package.as_slice()))?;
        packages.push(package)?;
    }
    match manifest_of(bytes.as_slice()) {
        Some(manifest) => Ok(Published {
            holder: Listener::new(Node::holding(&manifest)),
            packages,
        }),
        None => Err(Fail::new("no manifest")),
    }
}

// A page that a node stored.
#[derive(Clone, Copy)]
struct Page {
    ordinal: u8,
    page: u8,
    length: u16,
    bytes: [u8; 256],
}

/// A node, and the pages that it stored.
#[derive(Drop)]
pub struct Peer {
    listener: Listener,
    pages: Vec<Page>,
}

/// A node that knows of no release.
pub fn newcomer(alloc: Global) -> Peer {
    Peer {
        listener: Listener::new(Node::newcomer()),
        pages: Vec::new(alloc),
    }
}

// Page `page` of a package, where it has one.
fn page_of(package: &[u8], ordinal: u8, page: u8) -> Option<Page> {
    let start = 256 * page as usize;
    let end = (start + 256).min(package.len());
    if end <= start {
        return None;
    }
    let piece = package.get(start..end)?;
    let mut bytes = [0; 256];
    for (to, from) in bytes.iter_mut().zip(piece) {
        *to = *from;
    }
    Some(Page {
        ordinal,
        page,
        length: (end - start) as u16,
        bytes,
    })
}

/// A node that has each page of a release.
pub fn holder(alloc: Global, release: &Published) -> Result<Peer, Fail> {
    let mut pages = Vec::new(alloc);
    for ordinal in 0..2u8 {
        if let Some(package) = release.packages.as_slice().get(ordinal as usize) {
            for page in 0..3u8 {
                if let Some(found) = page_of(package.as_slice(), ordinal, page) {
                    pages.push(found)?;
                }
            }
        }
    }
    Ok(Peer {
        listener: Listener::new(release.holder.node()),
        pages,
    })
}

// The page that was stored last.
fn find(pages: &[Page], ordinal: u8, page: u8) -> Option<Page> {
    let mut found = None;
    for p in pages {
        if p.ordinal == ordinal && p.page == page {
            found = Some(*p);
        }
    }
    found
}

// Whether the pages of a component have its digest.
fn has_digest(alloc: Global, node: &Node, pages: &[Page], ordinal: u8) -> Result<bool, Fail> {
    let mut bytes = Vec::new(alloc);
    for page in 0..3u8 {
        if let Some(found) = find(pages, ordinal, page) {
            if let Some(counting) = found.bytes.as_slice().get(..found.length as usize) {
                bytes.extend_from_slice(counting)?;
            }
        }
    }
    match node.manifest.entries.as_slice().get(ordinal as usize) {
        Some(entry) => Ok(Sha256::digest(bytes.as_slice()) == entry.digest),
        None => Err(Fail::new("no entry")),
    }
}

// Writes a message's frame behind those that were sent.
fn say(m: &Message, sent: &mut Vec<[u8; 616]>) -> Result<(), AllocError>
    requires { IsMessage m.now }
{
    let mut frame = [0; 616];
    let _length = write_message(m, &mut frame);
    sent.push(frame)?;
    Ok(())
}

/// The message of a frame that was sent.
pub fn message_in(frame: &[u8; 616]) -> Option<Message>
    ensures { IfSome result OffersRelease }
{
    let size = u16::from_le_bytes([frame[1], frame[2]]) as usize;
    let payload = frame.as_slice().get(3..3 + size)?;
    if payload.len() > 616 {
        return None;
    }
    read_message(frame[0], payload)
}

// Carries a step out.
fn carry_out(
    alloc: Global,
    node: &Node,
    step: Step,
    pages: &mut Vec<Page>,
    sent: &mut Vec<[u8; 616]>,
) -> Result<Node, Fail>
    requires manifest { IsNodeManifest node.now.manifest }
    requires next { MayBeDone node.now.manifest step }
    ensures { IfOk result (λ n. IsNodeManifest n.manifest) }
{
    let mut next = *node;
    match step {
        Step::Nothing => Ok(next),
        Step::Send(m) => {
            say(&m, sent)?;
            Ok(next)
        }
        Step::Take(m) => {
            pages.clear();
            next.taken(&m, 0);
            Ok(next)
        }
        Step::Store {
            ordinal,
            page,
            length,
            bytes,
        } => {
            pages.push(Page {
                ordinal,
                page,
                length,
                bytes,
            })?;
            if !next.stored(ordinal, page) {
                return Ok(next);
            }
            let good = has_digest(alloc, &next, pages.as_slice(), ordinal)?;
            next.checked(ordinal, good);
            Ok(next)
        }
        Step::Fetch { ordinal, page } => {
            let Some(found) = find(pages.as_slice(), ordinal, page) else {
                return Err(Fail::new("no page"));
            };
            if found.length == 0 || 256 < found.length {
                return Err(Fail::new("no page"));
            }
            say(
                &next.fetched(ordinal, page, found.length, &found.bytes),
                sent,
            )?;
            Ok(next)
        }
    }
}

// Whether a page that was stored is that page of a release's package.
fn is_right(page: &Page, release: &Published) -> bool {
    let Some(package) = release.packages.as_slice().get(page.ordinal as usize) else {
        return false;
    };
    match page_of(package.as_slice(), page.ordinal, page.page) {
        Some(want) => want.length == page.length && want.bytes == page.bytes,
        None => false,
    }
}

/// A node hears a message.
pub fn hear(
    alloc: Global,
    peer: &mut Peer,
    m: &Message,
    sent: &mut Vec<[u8; 616]>,
) -> Result<(), Fail>
    requires { OffersRelease m.now }
{
    let node = peer.listener.node();
    match carry_out(alloc, &node, node.hear(m), &mut peer.pages, sent) {
        Ok(next) => {
            peer.listener = Listener::new(next);
            Ok(())
        }
        Err(fault) => Err(fault),
    }
}

/// The number of the node's release, its whole components, and how many pages it stored.
pub fn told(peer: &Peer) -> (u32, u16, usize) {
    let node = peer.listener.node();
    (node.manifest.release, node.whole, peer.pages.len())
}

/// Whether the pages that a node stored are those of its release.
pub fn is_right_peer(peer: &Peer, first: &Published, second: &Published) -> bool {
    let release = if peer.listener.node().manifest.release == 1 {
        first
    } else {
        second
    };
    for page in peer.pages.as_slice() {
        if !is_right(page, release) {
            return false;
        }
    }
    true
}
