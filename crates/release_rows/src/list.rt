//! Small types over `Vec` that contracts see as lists.

ghost use Rattle.std.specs.Prelude.{◌≡◌};

use crate::part::{Numbered, Part};
use crate::row::SymbolRow;
use std::marker::Model;

/// The components of a release by their names, in order. Contracts see the list of them.
#[derive(Debug, Drop)]
pub struct Parts {
    content: Vec<Part>,
}

impl Model for Parts {
    ghost use Rattle.std.specs.Prelude.{List};
    ghost use Rattle.release_rows.specs.declared.part.Part.{Part};

    ghost Value = { List Part };

    ghost view = { λ x. x.content.items };
}

impl Parts {
    /// The components of `v`.
    pub fn of(v: Vec<Part>) -> Parts
        ensures { result ≡ v.items }
    {
        Parts { content: v }
    }

    /// The components, borrowed.
    pub fn as_slice(&self) -> &[Part]
        ensures { result.now ≡ self.now }
    {
        self.content.as_slice()
    }
}

/// The components of a release by their numbers, in order. Contracts see the list of them.
#[derive(Debug, Drop)]
pub struct NumberedParts {
    content: Vec<Numbered>,
}

impl Model for NumberedParts {
    ghost use Rattle.std.specs.Prelude.{List};
    ghost use Rattle.release_rows.specs.declared.part.Numbered.{Numbered};

    ghost Value = { List Numbered };

    ghost view = { λ x. x.content.items };
}

impl NumberedParts {
    /// The components of `v`.
    pub fn of(v: Vec<Numbered>) -> NumberedParts
        ensures { result ≡ v.items }
    {
        NumberedParts { content: v }
    }

    /// The components, borrowed.
    pub fn as_slice(&self) -> &[Numbered]
        ensures { result.now ≡ self.now }
    {
        self.content.as_slice()
    }
}

/// Rows of symbols. Contracts see the list of them.
#[derive(Debug, Drop)]
pub struct SymbolRows {
    content: Vec<SymbolRow>,
}

impl Model for SymbolRows {
    ghost use Rattle.std.specs.Prelude.{List};
    ghost use Rattle.release_rows.specs.declared.row.SymbolRow.{SymbolRow};

    ghost Value = { List SymbolRow };

    ghost view = { λ x. x.content.items };
}

impl SymbolRows {
    /// The rows of `v`.
    pub fn of(v: Vec<SymbolRow>) -> SymbolRows
        ensures { result ≡ v.items }
    {
        SymbolRows { content: v }
    }

    /// The rows, borrowed.
    pub fn as_slice(&self) -> &[SymbolRow]
        ensures { result.now ≡ self.now }
    {
        self.content.as_slice()
    }
}

/// The numbers that a refusal carries. Contracts see the list of them.
#[derive(Debug, Drop)]
pub struct Values {
    content: Vec<i64>,
}

impl Model for Values {
    ghost use Rattle.std.specs.Prelude.{List, ℤ};

    ghost Value = { List ℤ };

    ghost view = { λ x. x.content.items };
}

impl Values {
    /// The numbers of `v`.
    pub fn of(v: Vec<i64>) -> Values
        ensures { result ≡ v.items }
    {
        Values { content: v }
    }

    /// The numbers, borrowed.
    pub fn as_slice(&self) -> &[i64]
        ensures { result.now ≡ self.now }
    {
        self.content.as_slice()
    }
}
