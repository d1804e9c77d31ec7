//! What the release server's rules say of releases and of acknowledgements, over rows, and the image of a release.
//!
//! Rows are only read. The definitions in `specs/` say each answer as a function of the tables.
#![tactic(auto)]

mod acknowledge;
mod image;
mod judged;
mod numbers;
mod refusal;
mod release;
mod text;

pub use acknowledge::judge_ack;
pub use image::{ImageAnswer, release_image};
pub use judged::Judged;
pub use refusal::{link_refusal, refused};
pub use release::{judge_release, read_packages};
pub use text::{bytes_of, text_of};
