//! The relocations that a package keeps.

ghost use Rattle.std.specs.Prelude.{◌≡◌, ◌<◌, ◌+◌, ◌++◌, ◌^◌, pos, ◌+ℤ◌, true, false, length, MatchOption, IfOk, IfErr, OnOk, Some, None, if◌then◌else◌};
ghost use Rattle.std.specs.Option.{option_to_list};
ghost use Rattle.std.specs.Result.{result_err};
ghost use Rattle.avr_elf.specs.First.{first_of};
ghost use Rattle.object_packer.specs.declared.layout.Home.{Home};
ghost use Rattle.object_packer.specs.Sections.{section_at, rela_at};
ghost use Rattle.component_package.specs.declared.part.Place.TheVariants as places;
ghost use Rattle.object_packer.specs.Parts.{home_of, is_place, part_length};
ghost use Rattle.object_packer.specs.Relocations.{kept_of, kept_at, kept_in, kept};
ghost use Rattle.object_packer.specs.Faults.{has_field, is_small, kept_fault, entry_fault, relas_fault, Says};

use crate::fault::PackFault;
use crate::layout::Home;
use crate::reference::Target;
use crate::resolver::Resolver;
use avr_elf::Rela;
use avr_reloc::RelocType;
use component_package::Place;
use std::alloc::{AllocError, Global};

/// A relocation that is kept.
#[derive(Clone, Copy)]
pub(crate) struct Kept {
    /// The patched section.
    pub section: u16,
    /// The entry among that section's relocations.
    pub entry: u32,
    /// Whether the field stands in data; else it stands in code.
    pub in_init: bool,
    /// Where the field begins, in bytes from the part's begin.
    pub offset: u64,
    /// Where the field begins in code followed by data.
    pub position: u64,
    /// How the value is put into the field.
    pub kind: RelocType,
    /// The symbol.
    pub symbol: u32,
    /// What the relocation refers to.
    pub target: Target,
    /// Whether an undefined symbol counts as 0.
    pub weak: bool,
    /// What is added to the target's address.
    pub addend: i16,
}

/// A patched section in memory.
#[derive(Clone, Copy)]
pub(crate) struct Patched {
    /// The section's index.
    pub index: u16,
    /// Its size in bytes.
    pub size: u32,
    /// Where it begins.
    pub home: Home,
}

fn has_field(size: u32, offset: u32, kind: RelocType) -> bool
    ensures { result ≡ has_field size offset kind }
{
    offset as u64 + kind.width() as u64 <= size as u64
        && (!kind.is_instruction() || offset % 2 == 0)
}

fn is_small(n: i64) -> bool
    ensures { result ≡ is_small n }
{
    -32_768 <= n && n <= 32_767
}

// What is added to a symbol's place and an entry's own addend, where it has room in two bytes.
fn addend_of(value: u64, addend: i32) -> Option<i16>
    requires { value < 2 ^ 51 }
    ensures { MatchOption result (is_small (pos value +ℤ addend) ≡ false) (λ a. (is_small (pos value +ℤ addend) ≡ true) × (a ≡ pos value +ℤ addend)) }
{
    let sum = value as i64 + addend as i64;
    if is_small(sum) {
        Some(sum as i16)
    } else {
        None
    }
}

fn is_init(place: Place) -> bool
    ensures { result ≡ is_place places.Init (Some place) }
{
    match place {
        Place::Init => true,
        _ => false,
    }
}

// Puts a relocation behind those that are there, where it is kept.
fn push_some(out: &mut Vec<Kept>, kept: Option<Kept>) -> Result<(), AllocError>
    ensures { OnOk result (out.new.items ≡ out.old.items ++ option_to_list kept) }
{
    match kept {
        None => Ok(()),
        Some(kept) => {
            out.push(kept)?;
            Ok(())
        }
    }
}

impl<'a> Resolver<'a> {
    // The bytes of code that stand before data, and of nothing that stand before code.
    fn before(&self, in_init: bool) -> u64
        ensures before { result ≡ (if in_init then part_length self.now places.Code else 0) }
        ensures short { result < 2 ^ 50 }
    {
        if in_init {
            self.layout.lengths().code
        } else {
            0
        }
    }

    // An entry of a type that is kept, or none where it has a type that changes nothing.
    fn entry(&self, s: &Patched, i: u32, x: &Rela) -> Result<Option<Kept>, PackFault>
        requires rela { rela_at self.now s.now.index i ≡ x.now }
        requires size { (section_at self.now s.now.index).size ≡ s.now.size }
        requires symbol { x.now.symbol < length self.now.symbols }
        requires small { s.now.home.start < 2 ^ 50 }
        ensures fault { result_err result ≡ entry_fault self.now s.now.index i }
        ensures kept { IfOk result (λ r. r ≡ kept_at self.now s.now.index s.now.home i) }
    {
        if x.kind > 32 {
            return Err(PackFault::Kind(s.index, i, x.kind));
        }
        let Some(kind) = RelocType::of_number(x.kind) else {
            return Ok(None);
        };
        self.kept(s, i, x, kind)
    }

    fn kept(
        &self,
        s: &Patched,
        i: u32,
        x: &Rela,
        kind: RelocType,
    ) -> Result<Option<Kept>, PackFault>
        requires rela { rela_at self.now s.now.index i ≡ x.now }
        requires size { (section_at self.now s.now.index).size ≡ s.now.size }
        requires symbol { x.now.symbol < length self.now.symbols }
        requires small { s.now.home.start < 2 ^ 50 }
        ensures fault { result_err result ≡ kept_fault self.now s.now.index i (Some kind) }
        ensures kept { IfOk result (λ r. r ≡ Some (kept_of self.now s.now.index s.now.home i kind)) }
    {
        let reference = self.reference(x.symbol);
        if !has_field(s.size, x.offset, kind) {
            return Err(PackFault::Field(s.index, i));
        }
        if let Some(outside) = reference.outside {
            return Err(PackFault::Section(outside));
        }
        let Some(addend) = addend_of(reference.value, x.addend) else {
            return Err(PackFault::Addend(s.index, i));
        };
        let in_init = is_init(s.home.place);
        let offset = s.home.start + x.offset as u64;
        Ok(Some(Kept {
            section: s.index,
            entry: i,
            in_init,
            offset,
            position: self.before(in_init) + offset,
            kind,
            symbol: x.symbol,
            target: reference.target,
            weak: reference.weak,
            addend,
        }))
    }

    // Puts the relocations of a section behind those that are there.
    fn push_section(&self, out: &mut Vec<Kept>, s: &Patched) -> Result<(), PackFault>
        requires index { s.now.index < length self.now.sections }
        requires home { home_of self.now s.now.index ≡ Some s.now.home }
        requires size { (section_at self.now s.now.index).size ≡ s.now.size }
        requires small { s.now.home.start < 2 ^ 50 }
        ensures kept { OnOk result (out.new.items ≡ out.old.items ++ kept_in self.now s.now.index) }
        ensures none { OnOk result (relas_fault self.now s.now.index ≡ None) }
        ensures fault { IfErr result (λ f. Says f (relas_fault self.now s.now.index)) }
    {
        let relas = self.layout.relas(s.index);
        for i in 0..relas.len() {
            let x = relas.get(i);
            match self.entry(s, i, &x) {
                Err(fault) => return Err(fault),
                Ok(kept) => push_some(out, kept)?,
            }
        }
        Ok(())
    }

    // Puts the relocations of section `k` behind those that are there.
    fn push_relas(&self, out: &mut Vec<Kept>, k: u16) -> Result<(), PackFault>
        requires { k < length self.now.sections }
        ensures kept { OnOk result (out.new.items ≡ out.old.items ++ kept_in self.now k) }
        ensures none { OnOk result (relas_fault self.now k ≡ None) }
        ensures fault { IfErr result (λ f. Says f (relas_fault self.now k)) }
    {
        let Some(home) = self.layout.home(k) else {
            return Ok(());
        };
        let section = self.layout.section(k);
        let patched = Patched {
            index: k,
            size: section.size,
            home,
        };
        self.push_section(out, &patched)
    }

    /// The relocations that are kept, by section and entry, or the first fault of one.
    pub(crate) fn kept_relocs(&self, alloc: Global) -> Result<Vec<Kept>, PackFault>
        ensures kept { IfOk result (λ v. v.items ≡ kept self.now) }
        ensures none { IfOk result (λ _. first_of (relas_fault self.now) (length self.now.sections) ≡ None) }
        ensures fault { IfErr result (λ f. Says f (first_of (relas_fault self.now) (length self.now.sections))) }
    {
        let mut out = Vec::new(alloc);
        for k in 0..self.layout.section_count() {
            match self.push_relas(&mut out, k) {
                Ok(()) => {}
                Err(fault) => return Err(fault),
            }
        }
        Ok(out)
    }
}
