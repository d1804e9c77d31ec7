//! The code of a drawn component.

ghost use Rattle.std.specs.Prelude.{◌≡◌, ◌+◌, ◌*◌, ◌<◌, ◌≤◌, ◌++◌, [], ◌∷◌, OnOk, IfOk, length};
ghost use Rattle.std.specs.List.{flat_map};
ghost use Rattle.drawn_releases.specs.Generator.{instruction_at, instructions, instruction_bytes, calls_from, after, next};
ghost use Rattle.drawn_releases.specs.Code.{width_of};

use crate::random::Random;
use avr_reloc::RelocType;
use component_package::Reloc;
use std::alloc::{AllocError, Global};

/// What stands at a place of drawn code.
#[derive(Clone, Copy, Debug, PartialEq, Eq)]
pub(crate) enum Instruction {
    /// Any word.
    Word(u16),
    /// A call of a symbol, in two words.
    Call(u16),
}

/// Code, and the relocations of its calls.
#[derive(Drop)]
pub(crate) struct Code {
    pub(crate) bytes: Vec<u8>,
    pub(crate) calls: Vec<Reloc>,
}

fn draw_instruction(random: &mut Random, at: u16, left: u16) -> Instruction
    ensures value { result ≡ instruction_at at left random.old }
    ensures state { random.new ≡ next random.old }
    ensures fits { 0 < left → width_of result ≤ left }
{
    if 1 < left && at % 8 == 0 {
        return Instruction::Call(16 + random.draw(12) as u16);
    }
    Instruction::Word(random.draw(65536) as u16)
}

impl Instruction {
    // How many words it takes.
    fn width(self) -> u16
        ensures { result ≡ width_of self }
    {
        match self {
            Instruction::Word(_) => 1,
            Instruction::Call(_) => 2,
        }
    }
}

impl Code {
    // Appends an instruction at this word.
    fn push(&mut self, at: u16, instruction: Instruction) -> Result<(), AllocError>
        requires { at ≤ 32767 }
        ensures bytes { OnOk result (self.new.bytes.items ≡ self.old.bytes.items ++ instruction_bytes instruction) }
        ensures calls { OnOk result (self.new.calls.items ≡ self.old.calls.items ++ calls_from (2 * at) (instruction ∷ [])) }
    {
        match instruction {
            Instruction::Word(word) => self.bytes.extend_from_slice(&word.to_le_bytes())?,
            Instruction::Call(target) => {
                self.calls.push(Reloc {
                    offset: 2 * at,
                    in_init: false,
                    weak: false,
                    kind: RelocType::Call,
                    target,
                    addend: 0,
                })?;
                self.bytes.extend_from_slice(&[0x0E, 0x94, 0, 0])?;
            }
        }
        Ok(())
    }
}

/// Draws the code of so many words.
pub(crate) fn draw_code(alloc: Global, random: &mut Random, words: u16) -> Result<Code, AllocError>
    requires { words ≤ 32767 }
    ensures bytes { IfOk result (λ c. c.bytes.items ≡ flat_map instruction_bytes (instructions words 0 random.old)) }
    ensures calls { IfOk result (λ c. c.calls.items ≡ calls_from 0 (instructions words 0 random.old)) }
    ensures state { OnOk result (random.new ≡ after (length (instructions words 0 random.old)) random.old) }
{
    let mut code = Code {
        bytes: Vec::new(alloc),
        calls: Vec::new(alloc),
    };
    let mut at = 0;
    while at < words {
        let instruction = draw_instruction(random, at, words - at);
        code.push(at, instruction)?;
        at += instruction.width();
    }
    Ok(code)
}
