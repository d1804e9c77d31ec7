//! The staged image of a set in the second layout: its 480 pages, made one at a time from the set's components and the relocation list.
//!
//! A page is the code and the data of the set that lie in it, with 0xFF behind the image, and with those fields of the relocation list
//! patched that lie in it whole or in part. The list is the one in its area, whatever relocations these are. Code and data come out of the packages of
//! fresh components, and out of program flash for installed ones; staging programs pages of the staged image alone, so these stay until it is done. No
//! call takes memory; each holds a few pages of 256 bytes.
#![tactic(auto)]

mod arrays;
mod field;
mod plain;
mod staging;

pub use staging::{page_of, stage};
