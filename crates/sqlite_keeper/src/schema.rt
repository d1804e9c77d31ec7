//! The tables of the file, and the statements that read and write them.

/// A table.
#[derive(Clone, Copy)]
pub(crate) struct Table {
    /// Its name.
    pub(crate) name: &'static str,
    /// The statement that makes it.
    pub(crate) text: &'static str,
}

/// All tables. Each one's text is what the file keeps of its making.
pub(crate) const TABLES: [Table; 6] = [
    Table {
        name: "symbols",
        text: "CREATE TABLE symbols (number INTEGER PRIMARY KEY, name BLOB NOT NULL UNIQUE)",
    },
    Table {
        name: "components",
        text: "CREATE TABLE components (number INTEGER PRIMARY KEY, name TEXT NOT NULL UNIQUE)",
    },
    Table {
        name: "versions",
        text: "CREATE TABLE versions (component INTEGER NOT NULL, version INTEGER NOT NULL, package BLOB NOT NULL, PRIMARY KEY (component, version))",
    },
    Table {
        name: "parts",
        text: "CREATE TABLE parts (mote TEXT NOT NULL, number INTEGER NOT NULL, ordinal INTEGER NOT NULL, component INTEGER NOT NULL, version INTEGER NOT NULL, PRIMARY KEY (mote, number, ordinal))",
    },
    Table {
        name: "acks",
        text: "CREATE TABLE acks (mote TEXT PRIMARY KEY, number INTEGER NOT NULL)",
    },
    Table {
        name: "keys",
        text: "CREATE TABLE keys (key TEXT PRIMARY KEY, digest BLOB NOT NULL, body TEXT NOT NULL)",
    },
];

pub(crate) const TABLE_TEXT: &str = "SELECT sql FROM sqlite_schema WHERE name = ?1";

pub(crate) const BEGIN: &str = "BEGIN";

pub(crate) const COMMIT: &str = "COMMIT";

pub(crate) const ROLLBACK: &str = "ROLLBACK";

// Each of these finds its row by a key, and stops there.

pub(crate) const KEY: &str = "SELECT digest, body FROM keys WHERE key = ?1";

pub(crate) const SYMBOL: &str = "SELECT number FROM symbols WHERE name = ?1";

pub(crate) const LAST_SYMBOL: &str = "SELECT number FROM symbols ORDER BY number DESC LIMIT 1";

pub(crate) const COMPONENT: &str = "SELECT number FROM components WHERE name = ?1";

pub(crate) const COMPONENT_NAME: &str = "SELECT name FROM components WHERE number = ?1";

pub(crate) const LAST_COMPONENT: &str =
    "SELECT number FROM components ORDER BY number DESC LIMIT 1";

pub(crate) const LAST_VERSION: &str =
    "SELECT version FROM versions WHERE component = ?1 ORDER BY version DESC LIMIT 1";

pub(crate) const PACKAGE: &str =
    "SELECT package FROM versions WHERE component = ?1 AND version = ?2";

pub(crate) const LAST_RELEASE: &str =
    "SELECT number FROM parts WHERE mote = ?1 ORDER BY number DESC LIMIT 1";

/// One part more than a release may have, so that a release with too many is told.
pub(crate) const PARTS: &str =
    "SELECT ordinal, component, version FROM parts WHERE mote = ?1 AND number = ?2 ORDER BY ordinal LIMIT 17";

pub(crate) const ACK: &str = "SELECT number FROM acks WHERE mote = ?1";

pub(crate) const ADD_KEY: &str = "INSERT INTO keys (key, digest, body) VALUES (?1, ?2, ?3)";

pub(crate) const ADD_SYMBOL: &str = "INSERT INTO symbols (number, name) VALUES (?1, ?2)";

/// A name that has a number keeps it.
pub(crate) const ADD_COMPONENT: &str =
    "INSERT INTO components (number, name) VALUES (?1, ?2) ON CONFLICT (name) DO NOTHING";

pub(crate) const ADD_VERSION: &str =
    "INSERT INTO versions (component, version, package) VALUES (?1, ?2, ?3)";

pub(crate) const ADD_PART: &str =
    "INSERT INTO parts (mote, number, ordinal, component, version) VALUES (?1, ?2, ?3, ?4, ?5)";

pub(crate) const SET_ACK: &str =
    "INSERT INTO acks (mote, number) VALUES (?1, ?2) ON CONFLICT (mote) DO UPDATE SET number = excluded.number";
