//! Prints what updates cost a mote: `update_bench UPDATE..`.
//!
//! Each file holds the frames of an update, as the release server sends them. A mote that was just formatted takes one after another; for
//! each a line says how many bytes went over the line, what was programmed, and what LINK read.
#![tactic(auto)]

mod cost;
mod mote;
mod update;

use anyhow::{Context, Result};
use cost::install;
use mote::formatted;
use std::{env, fs};
use update::Update;

fn main(rt: HostRuntime) -> Result<()> {
    let mut mote = formatted(rt.alloc())?;
    for path in env::args(&rt)?.skip(1) {
        let bytes = fs::read(&rt, path.as_str()).context(format_args!("reading {path}"))?;
        let update = Update::read(&bytes).context(format_args!("{path}"))?;
        let (behind, cost) = install(rt.alloc(), mote, &update).context(format_args!("{path}"))?;
        mote = behind;
        println!(rt; "{path}: {cost}")?;
    }
    Ok(())
}
