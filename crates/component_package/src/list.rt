//! Small types over `String` and `Vec` that contracts see as lists.

ghost use Rattle.std.specs.Prelude.{◌≡◌, ℕ, List};

use crate::part::{Export, Reloc};
use std::alloc::AllocError;
use std::error::Error;
use std::fmt;
use std::marker::Model;

/// There was no memory.
#[derive(Clone, Copy, Debug, PartialEq, Eq)]
pub struct NoMemory;

impl fmt::Display for NoMemory {
    fn fmt<W: fmt::Write>(&self, f: &mut fmt::Formatter<W>) -> fmt::Result {
        write!(f, "there is no memory")
    }
}

impl Error for NoMemory {}

impl From<AllocError> for NoMemory {
    fn from(_error: AllocError) -> NoMemory {
        NoMemory
    }
}

/// Bytes. Contracts see the list of them.
#[derive(Debug, Drop)]
pub struct Bytes {
    content: Vec<u8>,
}

impl Model for Bytes {
    ghost Value = { List ℕ };

    ghost view = { λ b. b.content.items };
}

impl Bytes {
    /// The bytes of `v`.
    pub fn of(v: Vec<u8>) -> Bytes
        ensures { result ≡ v.items }
    {
        Bytes { content: v }
    }

    /// The bytes, borrowed.
    pub fn as_slice(&self) -> &[u8]
        ensures { result.now ≡ self.now }
    {
        self.content.as_slice()
    }
}

/// A text. Contracts see the list of its bytes in UTF-8.
#[derive(Debug, Drop)]
pub struct Text {
    content: String,
}

impl Model for Text {
    ghost Value = { List ℕ };

    ghost view = { λ t. t.content.bytes.items };
}

impl Text {
    /// The text `s`.
    pub fn of(s: String) -> Text
        ensures { result ≡ s.bytes.items }
    {
        Text { content: s }
    }

    /// The text, borrowed.
    pub fn as_str(&self) -> &str
        ensures { result.now ≡ self.now }
    {
        self.content.as_str()
    }
}

/// Exports. Contracts see the list of them.
#[derive(Debug, Drop)]
pub struct Exports {
    content: Vec<Export>,
}

impl Model for Exports {
    ghost use Rattle.std.specs.Prelude.{List};
    ghost use Rattle.component_package.specs.declared.part.Export.{Export};

    ghost Value = { List Export };

    ghost view = { λ x. x.content.items };
}

impl Exports {
    /// The exports of `v`.
    pub fn of(v: Vec<Export>) -> Exports
        ensures { result ≡ v.items }
    {
        Exports { content: v }
    }

    /// The exports, borrowed.
    pub fn as_slice(&self) -> &[Export]
        ensures { result.now ≡ self.now }
    {
        self.content.as_slice()
    }
}

/// Relocations. Contracts see the list of them.
#[derive(Debug, Drop)]
pub struct Relocs {
    content: Vec<Reloc>,
}

impl Model for Relocs {
    ghost use Rattle.std.specs.Prelude.{List};
    ghost use Rattle.component_package.specs.declared.part.Reloc.{Reloc};

    ghost Value = { List Reloc };

    ghost view = { λ x. x.content.items };
}

impl Relocs {
    /// The relocations of `v`.
    pub fn of(v: Vec<Reloc>) -> Relocs
        ensures { result ≡ v.items }
    {
        Relocs { content: v }
    }

    /// The relocations, borrowed.
    pub fn as_slice(&self) -> &[Reloc]
        ensures { result.now ≡ self.now }
    {
        self.content.as_slice()
    }
}
