//! Reading a package in place.

ghost use Rattle.std.specs.Prelude.{◌≡◌, ◌<◌, ◌≤◌, ◌+◌, ◌-◌, ◌++◌, length, replicate, IfOk, Some, slice_index, slice_range, slice_get};
ghost use Rattle.std.specs.Result.{result_err};
ghost use Rattle.component_package.specs.packages.Component.{Component};
ghost use Rattle.component_package.specs.packages.Reading.{header_of, total_of, header_of_component, raw_export, export_of, exports_fault, raw_reloc, reloc_of, field_span_of, relocs_fault, component_of, package_fault};
ghost use Rattle.component_package.specs.packages.Grammar.{Spells};
ghost use Rattle.component_package.specs.packages.View.{IsRead};
ghost use Rattle.component_package.specs.Laws.{spanned_field};

use crate::check::{check_export, check_reloc, field_span, place, reloc_with};
use crate::fault::PackageFault;
use crate::header::{header_fault_in, header_in, u16_in};
use crate::part::{Export, Header, Place, Reloc};
use avr_reloc::RelocType;
use std::marker::Model;

fn six_bytes(bytes: &[u8], at: usize) -> [u8; 6]
    requires { at + 6 ≤ length bytes.now }
    ensures { result ≡ slice_range bytes.now at (at + 6) }
{
    let raw = &bytes[at..at + 6];
    [raw[0], raw[1], raw[2], raw[3], raw[4], raw[5]]
}

fn eight_bytes(bytes: &[u8], at: usize) -> [u8; 8]
    requires { at + 8 ≤ length bytes.now }
    ensures { result ≡ slice_range bytes.now at (at + 8) }
{
    let raw = &bytes[at..at + 8];
    [
        raw[0], raw[1], raw[2], raw[3], raw[4], raw[5], raw[6], raw[7],
    ]
}

// The bytes of a field, with zeros up to four.
fn four_bytes(bytes: &[u8], at: usize, width: usize) -> [u8; 4]
    requires width { width ≤ 4 }
    requires inside { at + width ≤ length bytes.now }
    ensures { result ≡ slice_range bytes.now at (at + width) ++ replicate (4 - width) 0 }
{
    let raw = &bytes[at..at + width];
    [
        byte_or_zero(raw, 0),
        byte_or_zero(raw, 1),
        byte_or_zero(raw, 2),
        byte_or_zero(raw, 3),
    ]
}

fn byte_or_zero(raw: &[u8], i: usize) -> u8
    ensures { result ≡ slice_index raw.now i }
{
    raw.get(i).copied().unwrap_or(0)
}

fn export_raw(bytes: &[u8], h: &Header, i: u16) -> [u8; 6]
    requires header { h.now ≡ header_of bytes.now }
    requires whole { length bytes.now ≡ total_of h.now }
    requires inside { i < h.now.exports }
    ensures { result ≡ raw_export bytes.now i }
{
    let start = 32 + h.code as usize + h.init as usize;
    six_bytes(bytes, start + 6 * i as usize)
}

fn reloc_raw(bytes: &[u8], h: &Header, i: u16) -> [u8; 8]
    requires header { h.now ≡ header_of bytes.now }
    requires whole { length bytes.now ≡ total_of h.now }
    requires inside { i < h.now.relocs }
    ensures { result ≡ raw_reloc bytes.now i }
{
    let start = 32 + h.code as usize + h.init as usize + 6 * h.exports as usize;
    eight_bytes(bytes, start + 8 * i as usize)
}

// The field of a relocation, or zeros where it lies in no part.
fn field_raw(bytes: &[u8], h: &Header, raw: &[u8; 8]) -> [u8; 4]
    requires header { h.now ≡ header_of bytes.now }
    requires whole { length bytes.now ≡ total_of h.now }
    ensures { result ≡ spanned_field bytes.now (field_span_of h.now raw.now) }
{
    match field_span(h, raw) {
        Some((at, width)) => four_bytes(bytes, at as usize, width as usize),
        None => [0; 4],
    }
}

fn check_exports(bytes: &[u8], h: &Header) -> Result<(), PackageFault>
    requires header { h.now ≡ header_of bytes.now }
    requires whole { length bytes.now ≡ total_of h.now }
    ensures { result_err result ≡ exports_fault bytes.now }
{
    let mut before = None;
    for i in 0..h.exports {
        let export = check_export(h, before, i, &export_raw(bytes, h, i))?;
        before = Some(export.symbol);
    }
    Ok(())
}

fn check_relocs(bytes: &[u8], h: &Header) -> Result<(), PackageFault>
    requires header { h.now ≡ header_of bytes.now }
    requires whole { length bytes.now ≡ total_of h.now }
    ensures { result_err result ≡ relocs_fault bytes.now }
{
    let mut before = None;
    for i in 0..h.relocs {
        let raw = reloc_raw(bytes, h, i);
        let field = field_raw(bytes, h, &raw);
        let reloc = check_reloc(h, before.as_ref(), i, &raw, &field)?;
        before = Some(reloc);
    }
    Ok(())
}

/// A package without a fault, read in place. It borrows the bytes and copies none; contracts see the component that they spell.
#[derive(Drop)]
pub struct PackageView<'a> {
    bytes: &'a [u8],
    header: Header,
}

impl<'a> Model for PackageView<'a> {
    ghost Value = { Component };

    ghost view = { λ v. component_of v.bytes.now };

    ghost invariant = { λ v. IsRead v.bytes.now v.header };
}

/// Reads a package in place, or answers its first fault: of the header, then of the exports, then of the relocations.
pub fn read_package(bytes: &[u8]) -> Result<PackageView<'_>, PackageFault>
    ensures fault { result_err result ≡ package_fault bytes.now }
    ensures component { IfOk result (λ c. c ≡ component_of bytes.now) }
    ensures spells { IfOk result (λ c. Spells bytes.now c) }
{
    if let Some(fault) = header_fault_in(bytes, bytes.len()) {
        return Err(fault);
    }
    let header = header_in(bytes);
    check_exports(bytes, &header)?;
    check_relocs(bytes, &header)?;
    Ok(PackageView { bytes, header })
}

impl<'a> PackageView<'a> {
    /// The header.
    pub fn header(&self) -> Header
        ensures { result ≡ header_of_component self.now }
    {
        self.header
    }

    /// The code, an even number of bytes.
    pub fn code_bytes(&self) -> &[u8]
        ensures { result.now ≡ self.now.code }
    {
        let h = &self.header;
        &self.bytes[32..32 + h.code as usize]
    }

    /// The data that is copied to RAM at start, an even number of bytes.
    pub fn init_bytes(&self) -> &[u8]
        ensures { result.now ≡ self.now.init }
    {
        let h = &self.header;
        let start = 32 + h.code as usize;
        &self.bytes[start..start + h.init as usize]
    }

    /// Export `i`, from 0, of those that the header counts.
    pub fn export(&self, i: u16) -> Export
        requires { i < length self.now.exports }
        ensures { slice_get self.now.exports i ≡ Some result }
    {
        export_of(&export_raw(self.bytes, &self.header, i))
    }

    /// Relocation `i`, from 0, of those that the header counts.
    pub fn reloc(&self, i: u16) -> Reloc
        requires { i < length self.now.relocs }
        ensures { slice_get self.now.relocs i ≡ Some result }
    {
        reloc_of(&reloc_raw(self.bytes, &self.header, i))
    }
}

// What an export's bytes say. The default isn't met in a package that was read.
fn export_of(raw: &[u8; 6]) -> Export
    ensures { result ≡ export_of raw.now }
{
    Export {
        symbol: u16_in(raw, 0),
        place: place(raw[2] % 128).unwrap_or(Place::Code),
        weak: 128 <= raw[2],
        value: u16_in(raw, 4),
    }
}

// What a relocation's bytes say. The default isn't met in a package that was read.
fn reloc_of(raw: &[u8; 8]) -> Reloc
    ensures { result ≡ reloc_of raw.now }
{
    reloc_with(
        raw,
        RelocType::of_number(raw[3]).unwrap_or(RelocType::Abs32),
    )
}
