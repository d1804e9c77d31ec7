//! Releases drawn from a number.

ghost use Rattle.std.specs.Prelude.{◌<◌, ◌≤◌};

use crate::frames::{push_number, short};
use std::alloc::{AllocError, Global};

/// A component, its version, the release that has this version first, and its package.
#[derive(Drop)]
pub(crate) struct Part {
    pub(crate) component: u16,
    pub(crate) version: u16,
    pub(crate) since: u32,
    pub(crate) package: Vec<u8>,
}

/// Where power is cut while a release is brought: in this program, whose page then holds this byte all over.
#[derive(Clone, Copy)]
pub(crate) struct Cut {
    pub(crate) program: u16,
    pub(crate) fill: u8,
}

// Code or data, and the relocations of both so far, as they are spelled.
#[derive(Drop)]
struct Drawn {
    bytes: Vec<u8>,
    relocs: Vec<u8>,
}

// A linear congruential generator of 64 bits.
#[derive(Drop)]
struct Draws {
    state: u64,
}

// A relocation with addend 0.
fn push_reloc(
    into: &mut Vec<u8>,
    offset: u16,
    part: u8,
    kind: u8,
    target: u16,
) -> Result<(), AllocError> {
    push_number(into, offset)?;
    into.extend_from_slice(&[part, kind])?;
    push_number(into, target)?;
    push_number(into, 0)?;
    Ok(())
}

impl Draws {
    // Draws a number below `count`.
    fn draw(&mut self, count: u32) -> u16
        requires some { 0 < count }
        requires short { count ≤ 65536 }
        ensures { result < count }
    {
        self.state = self
            .state
            .wrapping_mul(6_364_136_223_846_793_005)
            .wrapping_add(1_442_695_040_888_963_407);
        ((self.state >> 33) % count as u64) as u16
    }

    // Code: each eighth word begins a call of a drawn component, unless it is the last one.
    fn code(&mut self, alloc: Global) -> Result<Drawn, AllocError> {
        let words = 32 + self.draw(600);
        let mut bytes = Vec::new(alloc);
        let mut relocs = Vec::new(alloc);
        for word in 0..words {
            if word % 8 == 0 && word + 1 < words {
                let target = 16 + self.draw(12);
                bytes.extend_from_slice(&[0x0E, 0x94, 0, 0])?;
                push_reloc(&mut relocs, word.wrapping_mul(2), 0, 18, target)?;
            } else if word % 8 != 1 {
                // Behind a call's first word stands its second.
                push_number(&mut bytes, self.draw(65536))?;
            }
        }
        Ok(Drawn { bytes, relocs })
    }

    // Data behind the code: a pointer to itself, and any bytes.
    fn data(&mut self, alloc: Global, relocs: Vec<u8>) -> Result<Drawn, AllocError> {
        let size = 2 * self.draw(20);
        let mut relocs = relocs;
        let mut bytes = Vec::new(alloc);
        if size != 0 {
            push_reloc(&mut relocs, 0, 1, 4, 1)?;
        }
        for at in 0..size {
            let byte = if at < 2 { 0 } else { self.draw(256) as u8 };
            bytes.push(byte)?;
        }
        Ok(Drawn { bytes, relocs })
    }

    // The package of a component. It exports its code's begin.
    fn package(
        &mut self,
        alloc: Global,
        component: u16,
        version: u16,
    ) -> Result<Vec<u8>, AllocError> {
        let code = self.code(alloc)?;
        let data = self.data(alloc, code.relocs)?;
        let bss = 2 * self.draw(20);
        let mut bytes = Vec::from_array(alloc, [0x46, 0x43, 0x50, 0x31])?;
        push_number(&mut bytes, component)?;
        push_number(&mut bytes, version)?;
        push_number(&mut bytes, short(code.bytes.len()))?;
        push_number(&mut bytes, short(data.bytes.len()))?;
        push_number(&mut bytes, bss)?;
        push_number(&mut bytes, 1)?;
        push_number(&mut bytes, short(data.relocs.len() / 8))?;
        bytes.extend_from_slice(&[0; 14])?;
        bytes.extend_from_slice(code.bytes.as_slice())?;
        bytes.extend_from_slice(data.bytes.as_slice())?;
        push_number(&mut bytes, component.wrapping_add(15))?;
        bytes.extend_from_slice(&[0; 4])?;
        bytes.extend_from_slice(data.relocs.as_slice())?;
        Ok(bytes)
    }
}

/// Releases, one after another.
#[derive(Drop)]
pub(crate) struct Drawing {
    draws: Draws,
    parts: Vec<Part>,
}

impl Drawing {
    /// What a number begins with: no part.
    pub(crate) fn begin(alloc: Global, number: u32) -> Drawing {
        Drawing {
            draws: Draws {
                state: number as u64,
            },
            parts: Vec::new(alloc),
        }
    }

    /// The parts of the release, in the order in which they are linked.
    pub(crate) fn parts(&self) -> &[Part] {
        self.parts.as_slice()
    }

    // Twelve components in their first version.
    fn make_all(&mut self, alloc: Global) -> Result<(), AllocError> {
        for component in 1..13u16 {
            let package = self.draws.package(alloc, component, 1)?;
            self.parts.push(Part {
                component,
                version: 1,
                since: 1,
                package,
            })?;
        }
        Ok(())
    }

    // A drawn component gets its next version, in this release.
    fn remake(&mut self, alloc: Global, release: u32) -> Result<(), AllocError> {
        let component = 1 + self.draws.draw(12);
        let Some(at) = self
            .parts
            .iter()
            .position(|part| part.component == component)
        else {
            return Ok(());
        };
        let Some(part) = self.parts.get_mut(at) else {
            return Ok(());
        };
        let version = part.version.wrapping_add(1);
        *part = Part {
            component,
            version,
            since: release,
            package: self.draws.package(alloc, component, version)?,
        };
        Ok(())
    }

    // One to three components are remade, and the order is turned.
    fn change(&mut self, alloc: Global, release: u32) -> Result<(), AllocError> {
        for _ in 0..1 + self.draws.draw(3) {
            self.remake(alloc, release)?;
        }
        let places = self.draws.draw(12) as usize;
        if places < self.parts.len() {
            self.parts.rotate_left(places);
        }
        Ok(())
    }

    /// Goes on to this release, and draws where power is cut.
    pub(crate) fn advance(&mut self, alloc: Global, release: u32) -> Result<Cut, AllocError> {
        if release == 1 {
            self.make_all(alloc)?;
        } else {
            self.change(alloc, release)?;
        }
        let program = 1 + self.draws.draw(400);
        let fill = self.draws.draw(256) as u8;
        Ok(Cut { program, fill })
    }
}
