//! Where in its part each section begins.

ghost use Rattle.std.specs.Prelude.{◌≡◌, ℕ, ◌<◌, ◌+◌, ◌*◌, ◌^◌, length, IfOk, Some};
ghost use Rattle.std.specs.Option.{option_map};
ghost use Rattle.object_packer.specs.declared.layout.Home.{Home};
ghost use Rattle.avr_elf.specs.Object.{relas_at};
ghost use Rattle.avr_elf.specs.View.{section_parts, symbol_parts};
ghost use Rattle.avr_elf.specs.WellFormed.{IsWellFormed};
ghost use Rattle.object_packer.specs.Sections.{section_at, symbol_at};
ghost use Rattle.object_packer.specs.Parts.{even_up, home_of, part_length};
ghost use Rattle.object_packer.specs.Layout.{lengths_before, lengths_of, length_in, grown, AreBelow};

use crate::object::{section_in, symbol_in};
use crate::place::place_of;
use avr_elf::{ObjectView, RelaTable, Section, Symbol};
use component_package::Place;
use std::alloc::{AllocError, Global};
use std::marker::Model;

/// Where a section begins.
#[derive(Clone, Copy)]
pub(crate) struct Home {
    /// The part.
    pub place: Place,
    /// In bytes from the part's begin, an even number.
    pub start: u64,
}

/// How long the parts are, in bytes.
#[derive(Clone, Copy)]
pub(crate) struct Lengths {
    /// Code.
    pub code: u64,
    /// Data that is copied to RAM at start.
    pub init: u64,
    /// Zeroed RAM.
    pub bss: u64,
}

// The least even number from a section's size on.
fn even_up(size: u32) -> u64
    ensures even { result ≡ even_up size }
    ensures small { result < 2 ^ 33 }
{
    size as u64 + size as u64 % 2
}

impl Lengths {
    fn of(self, place: Place) -> u64
        ensures { result ≡ length_in self place }
    {
        match place {
            Place::Code => self.code,
            Place::Init => self.init,
            Place::Bss => self.bss,
            Place::Absolute => 0,
        }
    }

    // With a section more.
    fn grown(self, place: Option<Place>, size: u32) -> Lengths
        requires { AreBelow (2 ^ 50) self }
        ensures grown { result ≡ grown self place size }
        ensures small { (bound : ℕ) → AreBelow bound self → AreBelow (bound + 2 ^ 33) result }
    {
        let room = even_up(size);
        match place {
            Some(Place::Code) => Lengths {
                code: self.code + room,
                ..self
            },
            Some(Place::Init) => Lengths {
                init: self.init + room,
                ..self
            },
            Some(Place::Bss) => Lengths {
                bss: self.bss + room,
                ..self
            },
            _ => self,
        }
    }
}

/// An object with the places of its sections. Contracts see the object.
#[derive(Drop)]
pub(crate) struct Layout<'a> {
    pub object: &'a ObjectView<'a>,
    homes: Vec<Option<Home>>,
    lengths: Lengths,
}

impl<'a> Model for Layout<'a> {
    ghost use Rattle.avr_elf.specs.Object.{Object};
    ghost use Rattle.object_packer.specs.Layout.{IsLayout};

    ghost Value = { Object };

    ghost view = { λ l. l.object.now };

    ghost invariant = { λ l. IsLayout l.object.now l.homes.items l.lengths };
}

// Where a section begins behind the parts before it.
fn home_in(place: Option<Place>, before: Lengths) -> Option<Home>
    ensures { result ≡ option_map (λ p. record { place = p; start = length_in before p }) place }
{
    match place {
        None => None,
        Some(place) => Some(Home {
            place,
            start: before.of(place),
        }),
    }
}

impl<'a> Layout<'a> {
    /// The places of an object's sections.
    pub(crate) fn of(alloc: Global, object: &'a ObjectView<'a>) -> Result<Layout<'a>, AllocError>
        ensures { IfOk result (λ l. l ≡ object.now) }
    {
        let mut homes = Vec::new(alloc);
        let mut lengths = Lengths {
            code: 0,
            init: 0,
            bss: 0,
        };
        for k in 0..object.section_count() {
            let section = section_in(object, k);
            let place = place_of(&section);
            homes.push(home_in(place, lengths))?;
            lengths = lengths.grown(place, section.size);
        }
        Ok(Layout {
            object,
            homes,
            lengths,
        })
    }

    /// The part that section `k` belongs to and where in it the section begins; none where it is not in
    /// memory.
    pub(crate) fn home(&self, k: u16) -> Option<Home>
        requires { k < length self.now.sections }
        ensures home { result ≡ home_of self.now k }
        ensures small { (home : Home) → result ≡ Some home → home.start < 2 ^ 50 }
    {
        self.homes[k as usize]
    }

    /// How many sections the object has.
    pub(crate) fn section_count(&self) -> u16
        ensures count { result ≡ length self.now.sections }
        ensures well_formed { IsWellFormed self.now }
    {
        self.object.section_count()
    }

    /// How many symbols the object has.
    pub(crate) fn symbol_count(&self) -> u32
        ensures { result ≡ length self.now.symbols }
    {
        self.object.symbol_count()
    }

    /// Symbol `i`.
    pub(crate) fn symbol(&self, i: u32) -> Symbol<'a>
        requires { i < length self.now.symbols }
        ensures { symbol_parts result ≡ symbol_at self.now i }
    {
        symbol_in(self.object, i)
    }

    /// Section `k`.
    pub(crate) fn section(&self, k: u16) -> Section<'a>
        requires { k < length self.now.sections }
        ensures { section_parts result ≡ section_at self.now k }
    {
        section_in(self.object, k)
    }

    /// The relocations of section `k`.
    pub(crate) fn relas(&self, k: u16) -> RelaTable<'a>
        requires { k < length self.now.sections }
        ensures relas { result ≡ relas_at self.now k }
        ensures well_formed { IsWellFormed self.now }
    {
        let _count = self.object.section_count();
        self.object.relas(k)
    }

    /// How long the parts are.
    pub(crate) fn lengths(&self) -> Lengths
        ensures lengths { result ≡ lengths_of self.now }
        ensures short { AreBelow (2 ^ 50) result }
    {
        self.lengths
    }
}
