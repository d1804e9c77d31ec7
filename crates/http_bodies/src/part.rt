//! One part of a release, and lists of them.

ghost use Rattle.std.specs.Prelude.{◌≡◌, string_bytes};

use std::marker::Model;

/// The name of a component. Contracts see the list of its bytes.
#[derive(Debug, Drop)]
pub struct Name {
    text: String,
}

impl Model for Name {
    ghost use Rattle.std.specs.Prelude.{ℕ, List, string_bytes};

    ghost Value = { List ℕ };

    ghost view = { λ n. string_bytes n.text };
}

impl Name {
    /// The name `text`.
    pub fn of(text: String) -> Name
        ensures { result ≡ string_bytes text }
    {
        Name { text }
    }

    /// The name, borrowed.
    pub fn as_str(&self) -> &str
        ensures { result.now ≡ self.now }
    {
        self.text.as_str()
    }

    /// The name's text.
    pub fn into_string(self) -> String
        ensures { string_bytes result ≡ self }
    {
        self.text
    }
}

/// One part of a release: a component's name, and one of its versions.
#[derive(Debug, Drop)]
pub struct Part {
    /// The component's name.
    pub component: Name,
    /// Its version.
    pub version: u16,
}

/// The parts of a release, in the order in which they are linked. Contracts see the list of them.
#[derive(Debug, Drop)]
pub struct Parts {
    content: Vec<Part>,
}

impl Model for Parts {
    ghost use Rattle.std.specs.Prelude.{List};
    ghost use Rattle.http_bodies.specs.declared.part.Part.{Part};

    ghost Value = { List Part };

    ghost view = { λ x. x.content.items };
}

impl Parts {
    /// The parts of `v`.
    pub fn of(v: Vec<Part>) -> Parts
        ensures { result ≡ v.items }
    {
        Parts { content: v }
    }

    /// The parts, borrowed.
    pub fn as_slice(&self) -> &[Part]
        ensures { result.now ≡ self.now }
    {
        self.content.as_slice()
    }

    /// The vector of the parts.
    pub fn into_vec(self) -> Vec<Part>
        ensures { result.items ≡ self }
    {
        self.content
    }
}
