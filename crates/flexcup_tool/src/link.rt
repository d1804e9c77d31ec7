//! `link`: the image of packages.

use anyhow::{Result, bail, ensure};
use component_package::{Bytes, read_package};
use full_linker::{link, may_be_linked};
use std::fs;
use std::io::Write;
use std::process::ExitCode;

fn read_set(rt: &HostRuntime, paths: &[&str]) -> Result<Vec<Bytes>> {
    let mut set = Vec::new(rt.alloc());
    for path in paths {
        let bytes = fs::read(rt, *path)?;
        if let Err(fault) = read_package(&bytes) {
            bail!("{path}: {fault}");
        }
        set.push(Bytes::of(bytes))?;
    }
    Ok(set)
}

/// Writes the image of packages, in the order in which they are given, to standard output. Where
/// there is none, the error has its cause and the cause's number.
pub(crate) fn write_image(rt: &HostRuntime, paths: &[&str]) -> Result<ExitCode> {
    let set = read_set(rt, paths)?;
    ensure!(
        may_be_linked(rt.alloc(), &set)?,
        "these are more than 16 packages, or two of them are of one component"
    );
    match link(rt.alloc(), &set) {
        Ok(image) => rt.stdout().write_all(&image)?,
        Err(fault) => bail!("cause {}: {fault}", fault.number()),
    }
    Ok(ExitCode::SUCCESS)
}
