//! A release that is taken and passed on, frame by frame.

ghost use Rattle.std.specs.Prelude.{◌≤◌, IfOk};
ghost use Rattle.component_package.specs.packages.Manifest.{IsManifest};
ghost use Rattle.spread_core.specs.Hearing.{IsNodeManifest, OffersRelease};
ghost use Rattle.spread_core.specs.MessageFrames.{IsMessage};

use crate::frames::{is_written_as, manifest_of};
use component_package::Manifest;
use spread_core::{Message, Node, Step, read_message};
use std::test::Fail;

// Release 1 of two components, with packages of 46 and 40 bytes.
const MANIFEST: [u8; 81] = [
    1, 0, 0, 0, 2, 1, 0, 1, 0, 46, 0, 50, 49, 219, 254, 133, 156, 37, 153, 76, 0, 32, 191, 133,
    128, 242, 246, 18, 183, 230, 40, 148, 226, 153, 162, 201, 198, 110, 155, 239, 162, 35, 255, 2,
    0, 1, 0, 40, 0, 214, 196, 228, 139, 127, 232, 110, 121, 33, 213, 187, 221, 66, 240, 115, 58, 2,
    121, 23, 225, 61, 236, 235, 139, 72, 70, 176, 174, 143, 21, 62, 195,
];

// Page 0 of the first package, behind the release, the ordinal and the page.
const PAGE: [u8; 52] = [
    1, 0, 0, 0, 0, 0, 70, 67, 80, 49, 1, 0, 1, 0, 6, 0, 0, 0, 0, 0, 0, 0, 1, 0, 0, 0, 0, 0, 0, 0,
    0, 0, 0, 0, 0, 0, 0, 0, 14, 148, 0, 0, 255, 207, 0, 0, 0, 18, 16, 0, 0, 0,
];

// What who has the whole release says of itself.
const ADVERT: Message = Message::Advert {
    release: 1,
    whole: 3,
};

// The release, which a newcomer takes.
fn offered() -> Result<Manifest, Fail>
    ensures { IfOk result IsManifest }
{
    match manifest_of(&MANIFEST) {
        Some(manifest) => Ok(manifest),
        None => Err(Fail::new("no manifest")),
    }
}

// A node that took a manifest.
fn taker(manifest: &Manifest) -> Node
    requires { IsManifest manifest.now }
    ensures { IsNodeManifest result.manifest }
{
    let mut node = Node::newcomer();
    node.taken(manifest, 0);
    node
}

// The message of PAGE.
fn page() -> Result<Message, Fail>
    ensures message { IfOk result IsMessage }
    ensures offered { IfOk result OffersRelease }
{
    match read_message(19, &PAGE) {
        Some(message) => Ok(message),
        None => Err(Fail::new("no page")),
    }
}

// Hears a page that is the last of its component, stores it, and finds the component good.
fn complete(node: &Node, data: &Message) -> Result<Node, Fail>
    requires manifest { IsNodeManifest node.now.manifest }
    requires offered { OffersRelease data.now }
    ensures { IfOk result (λ n. IsNodeManifest n.manifest) }
{
    let Step::Store { ordinal, page, .. } = node.hear(data) else {
        return Err(Fail::new("not stored"));
    };
    let mut next = *node;
    if !next.stored(ordinal, page) {
        return Err(Fail::new("not full"));
    }
    next.checked(ordinal, true);
    Ok(next)
}

#[test]
fn a_release_is_taken(rt: HostRuntime) -> Result<(), Fail> {
    let manifest = offered()?;
    let newcomer = Node::newcomer();
    assert_eq!(rt;
        newcomer.hear(&Message::Offer(manifest)),
        Step::Take(manifest)
    );
    // the first component is asked for
    let Step::Send(ask) = taker(&manifest).hear(&ADVERT) else {
        return Err(Fail::new("nothing sent"));
    };
    let payload = [1, 0, 0, 0, 0, 1, 0, 0, 0, 0, 0, 0, 0];
    assert!(rt; is_written_as(&ask, &[17, 13, 0], &payload));
    Ok(())
}

#[test]
fn a_page_is_stored_once(rt: HostRuntime) -> Result<(), Fail> {
    let node = taker(&offered()?);
    let data = page()?;
    let Message::Data { bytes, .. } = data else {
        return Err(Fail::new("no page"));
    };
    let want = Message::Data {
        release: 1,
        ordinal: 0,
        page: 0,
        length: 46,
        bytes,
    };
    assert_eq!(rt; data, want);
    assert_eq!(rt; bytes.as_slice().get(..46), PAGE.as_slice().get(6..));
    let store = Step::Store {
        ordinal: 0,
        page: 0,
        length: 46,
        bytes,
    };
    assert_eq!(rt; node.hear(&data), store);
    let node = complete(&node, &data)?;
    assert_eq!(rt; node.hear(&data), Step::Nothing);
    Ok(())
}

#[test]
fn the_next_component_is_asked_for(rt: HostRuntime) -> Result<(), Fail> {
    let node = complete(&taker(&offered()?), &page()?)?;
    let has_first = Message::Advert {
        release: 1,
        whole: 1,
    };
    assert_eq!(rt; node.hear(&Message::Tick), Step::Send(has_first));
    assert_eq!(rt; node.hear(&has_first), Step::Nothing);
    let ask = Message::Ask {
        release: 1,
        ordinal: 1,
        pages: 1,
    };
    assert_eq!(rt; node.hear(&ADVERT), Step::Send(ask));
    Ok(())
}

// The page that a node fetches where it is asked for pages, with these bytes.
fn passed_on(node: &Node, ask: &Message, length: u16, bytes: &[u8; 256]) -> Result<Message, Fail>
    requires manifest { IsNodeManifest node.now.manifest }
    requires offered { OffersRelease ask.now }
    requires some { 1 ≤ length }
    requires most { length ≤ 256 }
    ensures { IfOk result IsMessage }
{
    let Step::Fetch { ordinal, page } = node.hear(ask) else {
        return Err(Fail::new("not fetched"));
    };
    Ok(node.fetched(ordinal, page, length, bytes))
}

#[test]
fn a_component_is_passed_on(rt: HostRuntime) -> Result<(), Fail> {
    let data = page()?;
    let node = complete(&taker(&offered()?), &data)?;
    let Message::Data { bytes, .. } = data else {
        return Err(Fail::new("no page"));
    };
    let ask = Message::Ask {
        release: 1,
        ordinal: 0,
        pages: 1,
    };
    let fetch = Step::Fetch {
        ordinal: 0,
        page: 0,
    };
    assert_eq!(rt; node.hear(&ask), fetch);
    let sent = passed_on(&node, &ask, 46, &bytes)?;
    assert_eq!(rt; sent, data);
    assert!(rt; is_written_as(&sent, &[19, 52, 0], &PAGE));
    Ok(())
}

#[test]
fn a_manifest_is_offered(rt: HostRuntime) -> Result<(), Fail> {
    let node = complete(&taker(&offered()?), &page()?)?;
    let ask = Message::Ask {
        release: 1,
        ordinal: 255,
        pages: 0,
    };
    let Step::Send(offer) = node.hear(&ask) else {
        return Err(Fail::new("nothing sent"));
    };
    assert!(rt; is_written_as(&offer, &[18, 81, 0], &MANIFEST));
    Ok(())
}
