//! What a node knows, and what it does with a message.

ghost use Rattle.std.specs.Prelude.{◌≡◌, ℕ, ◌<◌, ◌≤◌, ◌↔◌, IfSome, IsTrue};
ghost use Rattle.component_package.specs.packages.Manifest.{IsManifest};
ghost use Rattle.spread_core.specs.Hearing.{IsNoManifest, IsNodeManifest, OffersRelease, length_at, pages_at, is_page, is_wanted, is_had, missing_pages, advert_of, first_wanted, first_page, hears_advert, hears_ask_for, hears_ask, hears_offer, is_new, hears_data, heard, taken_node, holding_node, stored_node, is_full, checked_node, fetched_message};
ghost use Rattle.spread_core.specs.Causes.{IsCalledFor, MayBeDone};

use crate::message::Message;
use crate::sets::{first_numbers, has, with_bit, with_bit_16};
use component_package::{Entry, Manifest};

// The ordinal of an Ask for the manifest.
const OF_MANIFEST: u8 = 255;

const NO_ENTRY: Entry = Entry {
    component: 0,
    version: 0,
    length: 0,
    digest: [0; 32],
};

/// What a node has of a release.
#[derive(Clone, Copy, Debug, PartialEq, Eq)]
pub struct Node {
    /// The release's manifest; one of release 0 with no components where the node knows of none.
    pub manifest: Manifest,
    /// The components that needn't be sent, as bits: bit n is that of the manifest's entry n.
    pub held: u16,
    /// The components that the node has whole, with their digests, as bits.
    pub whole: u16,
    /// The pages of each component that were stored, as bits.
    pub have: [u64; 16],
}

/// What a node does with a message.
#[derive(Clone, Copy, Debug, PartialEq, Eq)]
pub enum Step {
    /// Nothing.
    Nothing,
    /// Send this message.
    Send(Message),
    /// Take this manifest in place of the node's own, and say so with [`Node::taken`].
    Take(Manifest),
    /// Store a page, and say so with [`Node::stored`].
    Store {
        /// The component's place in the manifest.
        ordinal: u8,
        /// Which page of its package, of 256 bytes each.
        page: u8,
        /// How many of the bytes are the page: 256, or what the package has left.
        length: u16,
        /// The page; what stands behind `length` means nothing.
        bytes: [u8; 256],
    },
    /// Read a page that was stored, and send what [`Node::fetched`] makes of it.
    Fetch {
        /// The component's place in the manifest.
        ordinal: u8,
        /// Which page of its package.
        page: u8,
    },
}

fn has_limits(_manifest: &Manifest)
    requires { IsNodeManifest _manifest.now }
    ensures count { _manifest.now.count ≤ 16 }
    ensures lengths { (k : ℕ) → k < _manifest.now.count → length_at _manifest.now k ≤ 9984 }
{}

fn entry_has_limits(_manifest: &Manifest, _ordinal: u8)
    requires manifest { IsNodeManifest _manifest.now }
    requires listed { _ordinal < _manifest.now.count }
    ensures count { _manifest.now.count ≤ 16 }
    ensures length { length_at _manifest.now _ordinal ≤ 9984 }
{
    has_limits(_manifest);
}

impl Node {
    /// A node that knows of no release.
    pub fn newcomer() -> Self
        ensures manifest { IsNoManifest result.manifest }
        ensures nothing { result ≡ taken_node result.manifest 0 }
    {
        Node {
            manifest: Manifest {
                release: 0,
                count: 0,
                entries: [NO_ENTRY; 16],
            },
            held: 0,
            whole: 0,
            have: [0; 16],
        }
    }

    /// A node that has each component of this release whole, as the one that publishes it.
    pub fn holding(m: &Manifest) -> Self
        requires { IsManifest m.now }
        ensures { result ≡ holding_node m.now }
    {
        has_limits(m);
        Node {
            manifest: *m,
            held: 0,
            whole: first_numbers(m.count),
            have: [0; 16],
        }
    }

    // The length of a component's package.
    fn length_of(&self, ordinal: u8) -> u16
        requires { ordinal < 16 }
        ensures { result ≡ length_at self.now.manifest ordinal }
    {
        self.manifest.entries[ordinal as usize].length
    }

    // How many pages that has.
    fn pages_of(&self, ordinal: u8) -> u8
        requires manifest { IsNodeManifest self.now.manifest }
        requires listed { ordinal < self.now.manifest.count }
        ensures pages { result ≡ pages_at self.now.manifest ordinal }
        ensures few { result ≤ 39 }
    {
        entry_has_limits(&self.manifest, ordinal);
        ((self.length_of(ordinal) + 255) / 256) as u8
    }

    // Whether a component has still to be sent.
    fn is_wanted(&self, ordinal: u8) -> bool
        requires { ordinal < 16 }
        ensures { result ≡ is_wanted self.now ordinal }
    {
        !has(self.whole as u64, ordinal) && !has(self.held as u64, ordinal)
    }

    // Whether a page was stored.
    fn is_had(&self, ordinal: u8, page: u8) -> bool
        requires component { ordinal < 16 }
        requires page { page < 64 }
        ensures { result ≡ is_had self.now ordinal page }
    {
        has(self.have[ordinal as usize], page)
    }

    // The pages of a component that weren't stored.
    fn missing_pages(&self, ordinal: u8) -> u64
        requires manifest { IsNodeManifest self.now.manifest }
        requires listed { ordinal < self.now.manifest.count }
        ensures { result ≡ missing_pages self.now ordinal }
    {
        entry_has_limits(&self.manifest, ordinal);
        let mut missing = 0;
        for page in 0..self.pages_of(ordinal) {
            if !self.is_had(ordinal, page) {
                missing = with_bit(missing, page);
            }
        }
        missing
    }

    // Whether each page of a component was stored.
    fn is_full(&self, ordinal: u8) -> bool
        requires manifest { IsNodeManifest self.now.manifest }
        requires listed { ordinal < self.now.manifest.count }
        ensures full { result ≡ is_full self.now ordinal }
        ensures each { IsTrue result ↔ ((p : ℕ) → p < pages_at self.now.manifest ordinal → IsTrue (is_had self.now ordinal p)) }
    {
        self.missing_pages(ordinal) == 0
    }

    // The first component that the node wants and that is among these.
    fn first_wanted(&self, whole: u16) -> Option<u8>
        requires { IsNodeManifest self.now.manifest }
        ensures first { result ≡ first_wanted self.now whole }
        ensures listed { IfSome result (λ k. k < self.now.manifest.count) }
    {
        has_limits(&self.manifest);
        for ordinal in 0..self.manifest.count {
            if has(whole as u64, ordinal) && self.is_wanted(ordinal) {
                return Some(ordinal);
            }
        }
        None
    }

    // The first page of a component that is among these.
    fn first_page(&self, ordinal: u8, pages: u64) -> Option<u8>
        requires manifest { IsNodeManifest self.now.manifest }
        requires listed { ordinal < self.now.manifest.count }
        ensures { result ≡ first_page self.now ordinal pages }
    {
        for page in 0..self.pages_of(ordinal) {
            if has(pages, page) {
                return Some(page);
            }
        }
        None
    }

    // What the node says of itself.
    fn advert(&self) -> Message
        ensures { result ≡ advert_of self.now }
    {
        Message::Advert {
            release: self.manifest.release,
            whole: self.whole,
        }
    }

    fn hear_advert(&self, release: u32, whole: u16) -> Step
        requires { IsNodeManifest self.now.manifest }
        ensures { result ≡ hears_advert self.now release whole }
    {
        if release > self.manifest.release {
            return Step::Send(Message::Ask {
                release,
                ordinal: OF_MANIFEST,
                pages: 0,
            });
        }
        if release < self.manifest.release {
            return Step::Send(self.advert());
        }
        match self.first_wanted(whole) {
            Some(ordinal) => Step::Send(Message::Ask {
                release: self.manifest.release,
                ordinal,
                pages: self.missing_pages(ordinal),
            }),
            None => Step::Nothing,
        }
    }

    fn hear_ask_for(&self, ordinal: u8, pages: u64) -> Step
        requires { IsNodeManifest self.now.manifest }
        ensures { result ≡ hears_ask_for self.now ordinal pages }
    {
        has_limits(&self.manifest);
        if ordinal >= self.manifest.count {
            return Step::Nothing;
        }
        if !has(self.whole as u64, ordinal) {
            return Step::Nothing;
        }
        match self.first_page(ordinal, pages) {
            Some(page) => Step::Fetch { ordinal, page },
            None => Step::Nothing,
        }
    }

    fn hear_ask(&self, release: u32, ordinal: u8, pages: u64) -> Step
        requires { IsNodeManifest self.now.manifest }
        ensures { result ≡ hears_ask self.now release ordinal pages }
    {
        if release != self.manifest.release {
            return Step::Nothing;
        }
        if 0 < release && ordinal == OF_MANIFEST {
            return Step::Send(Message::Offer(self.manifest));
        }
        self.hear_ask_for(ordinal, pages)
    }

    fn hear_offer(&self, m: &Manifest) -> Step
        ensures { result ≡ hears_offer self.now m.now }
    {
        if m.release > self.manifest.release {
            Step::Take(*m)
        } else {
            Step::Nothing
        }
    }

    // Whether this is a whole page of the node's release that it wants and hasn't.
    fn is_new(&self, release: u32, ordinal: u8, page: u8, length: u16) -> bool
        requires { IsNodeManifest self.now.manifest }
        ensures { result ≡ is_new self.now release ordinal page length }
    {
        if self.manifest.release != release {
            return false;
        }
        if ordinal >= self.manifest.count {
            return false;
        }
        entry_has_limits(&self.manifest, ordinal);
        let start = 256 * page as u16;
        let whole = self.length_of(ordinal);
        if !self.is_wanted(ordinal) {
            return false;
        }
        if start >= whole {
            return false;
        }
        if self.is_had(ordinal, page) {
            return false;
        }
        length == (whole - start).min(256)
    }

    fn hear_data(&self, release: u32, ordinal: u8, page: u8, length: u16, bytes: &[u8; 256]) -> Step
        requires { IsNodeManifest self.now.manifest }
        ensures { result ≡ hears_data self.now release ordinal page length bytes.now }
    {
        if self.is_new(release, ordinal, page, length) {
            Step::Store {
                ordinal,
                page,
                length,
                bytes: *bytes,
            }
        } else {
            Step::Nothing
        }
    }

    fn step(&self, m: &Message) -> Step
        requires { IsNodeManifest self.now.manifest }
        ensures { result ≡ heard self.now m.now }
    {
        match m {
            Message::Advert { release, whole } => self.hear_advert(*release, *whole),
            Message::Ask {
                release,
                ordinal,
                pages,
            } => self.hear_ask(*release, *ordinal, *pages),
            Message::Offer(manifest) => self.hear_offer(manifest),
            Message::Data {
                release,
                ordinal,
                page,
                length,
                bytes,
            } => self.hear_data(*release, *ordinal, *page, *length, bytes),
            Message::Tick => Step::Send(self.advert()),
        }
    }

    /// What the node does with a message:
    ///
    /// - at a tick it says what it has;
    /// - it asks for the manifest of a later release, and says what it has to a node of an earlier one; a node of its own release it asks
    ///   for the missing pages of the first component that it wants and the other has;
    /// - to who asks in its release it offers its manifest, or fetches the first of the pages;
    /// - it takes the manifest of a later release;
    /// - it stores a page of its release that it wants and hasn't.
    ///
    /// At everything else it does nothing. What a step is done with next (`write_message`, `taken`, `stored`, `fetched`) may be called.
    pub fn hear(&self, m: &Message) -> Step
        requires manifest { IsNodeManifest self.now.manifest }
        requires offered { OffersRelease m.now }
        ensures step { result ≡ heard self.now m.now }
        ensures called_for { IsCalledFor self.now m.now result }
        ensures next { MayBeDone self.now.manifest result }
    {
        self.step(m)
    }

    /// The node took a manifest; the components in `held` needn't be sent. Of the others nothing is there yet.
    pub fn taken(&mut self, m: &Manifest, held: u16)
        requires manifest { IsNodeManifest self.old.manifest }
        requires offered { IsManifest m.now }
        ensures { self.new ≡ taken_node m.now held }
    {
        *self = Node {
            manifest: *m,
            held,
            whole: 0,
            have: [0; 16],
        };
    }

    /// A page of a component was stored. Answers whether each of its pages is there now: it is time to check its digest, and to say what
    /// came of it with [`Node::checked`].
    pub fn stored(&mut self, ordinal: u8, page: u8) -> bool
        requires manifest { IsNodeManifest self.old.manifest }
        requires listed { ordinal < self.old.manifest.count }
        requires page { IsTrue (is_page self.old.manifest ordinal page) }
        ensures node { self.new ≡ stored_node self.old ordinal page }
        ensures full { result ≡ is_full (stored_node self.old ordinal page) ordinal }
        ensures each { IsTrue result ↔ ((p : ℕ) → p < pages_at self.old.manifest ordinal → IsTrue (is_had self.new ordinal p)) }
    {
        entry_has_limits(&self.manifest, ordinal);
        self.have[ordinal as usize] = with_bit(self.have[ordinal as usize], page);
        self.is_full(ordinal)
    }

    /// A component was checked against its digest: it is whole, or none of its pages counts.
    pub fn checked(&mut self, ordinal: u8, good: bool)
        requires manifest { IsNodeManifest self.old.manifest }
        requires listed { ordinal < self.old.manifest.count }
        ensures { self.new ≡ checked_node self.old ordinal good }
    {
        has_limits(&self.manifest);
        if good {
            self.whole = with_bit_16(self.whole, ordinal);
        } else {
            self.have[ordinal as usize] = 0;
        }
    }

    /// The message with a page that was fetched: the first `length` of these bytes, 1 to 256.
    pub fn fetched(&self, ordinal: u8, page: u8, length: u16, bytes: &[u8; 256]) -> Message
        requires manifest { IsNodeManifest self.now.manifest }
        requires listed { ordinal < self.now.manifest.count }
        requires page { IsTrue (is_page self.now.manifest ordinal page) }
        requires some { 1 ≤ length }
        requires most { length ≤ 256 }
        ensures { result ≡ fetched_message self.now ordinal page length bytes.now }
    {
        Message::Data {
            release: self.manifest.release,
            ordinal,
            page,
            length,
            bytes: *bytes,
        }
    }
}
