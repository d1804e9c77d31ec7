//! Looks at objects and packages on the host, packs objects and links packages: `flexcup_tool SUBCOMMAND`.
//!
//! `flexcup_tool help` and `flexcup_tool help SUBCOMMAND` say what each takes and prints. The
//! status is 0 where all went well, 1 where a file or a line has a fault or a set has no image,
//! and 2 where the words given are wrong or an object is longer than objects are.
#![tactic(auto)]

mod command;
mod input;
mod link;
mod numbering;
mod object;
mod pack;
mod package;
mod patch;

use crate::pack::Request;
use anyhow::{Context, Result};
use clap::ArgMatches;
use std::env;
use std::process::ExitCode;

// The package of an object, as the words of `pack` say.
fn pack_object(rt: &HostRuntime, words: &ArgMatches<'_>) -> Result<ExitCode> {
    let request = Request {
        names: words.get_str("names").context("no file of names")?,
        component: words.get_one("COMPONENT").context("no component")?,
        version: words.get_one("VERSION").context("no version")?,
        object: words.get_str("OBJECT").context("no object")?,
    };
    pack::write(rt, &request)
}

fn run(rt: &HostRuntime, matches: &ArgMatches<'_>) -> Result<ExitCode> {
    if let Some(object) = matches.subcommand_matches("object") {
        return object::show(rt, object.get_str("FILE"));
    }
    if let Some(package) = matches.subcommand_matches("package") {
        return package::show(rt, package.get_str("FILE"));
    }
    if let Some(words) = matches.subcommand_matches("pack") {
        return pack_object(rt, words);
    }
    if let Some(link) = matches.subcommand_matches("link") {
        return link::write_image(rt, link.get_strs("FILE").unwrap_or(&[]));
    }
    patch::show_lines(rt)
}

fn main(rt: HostRuntime) -> Result<ExitCode> {
    let words: Vec<String> = env::args(&rt)?.collect(rt.alloc())?;
    let command = command::command(rt.alloc())?;
    match command.try_get_matches_from(words.as_slice()) {
        Ok(matches) => run(&rt, &matches),
        Err(error) => {
            error.print(&rt)?;
            Ok(ExitCode::from(if error.use_stderr() { 2 } else { 0 }))
        }
    }
}
