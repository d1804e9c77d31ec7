//! How motes pass the packages of a release to each other over a radio that loses, repeats and reorders messages.
//!
//! A node hears one message at a time and answers with one step: it sends a message, takes a manifest, stores a page, or fetches a page
//! to send it. It owns no radio and no flash: whoever runs it carries the steps out. No call takes memory.
#![tactic(auto)]

ghost use Rattle.spread_core.specs.Laws.{SpreadingIsRight, NodesNeverGoBack};
ghost use Rattle.spread_core.specs.MessageFrames.{FramesSayMessages};
ghost use Rattle.spread_core.specs.Tails.{TailsMeanNothing};

mod frame;
mod message;
mod node;
mod sets;

pub use frame::{read_message, write_message};
pub use message::Message;
pub use node::{Node, Step};

/// Whatever is lost, repeated and reordered: each page that a node stores is that page of that package of its release, each manifest
/// that is offered is a release's, and each component that counts as whole has its digest. It does nothing: its contract is the law.
pub fn spreading_is_right()
    ensures { SpreadingIsRight }
{}

/// Whatever is lost, repeated and reordered: no node goes back to an earlier release. It does nothing: its contract is the law.
pub fn nodes_never_go_back()
    ensures { NodesNeverGoBack }
{}

/// Each message has a frame, which is a message, and messages with one frame say the same. It does nothing: its contract is the law.
pub fn frames_say_messages()
    ensures { FramesSayMessages }
{}

/// A node's step is the same without the entries behind a manifest's count and the bytes behind a page; so it is the same for a message
/// that was sent as a frame and read again. It does nothing: its contract is the law.
pub fn tails_mean_nothing()
    ensures { TailsMeanNothing }
{}
