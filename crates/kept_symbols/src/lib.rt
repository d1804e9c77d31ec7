//! The mote's own symbol table: a record for each symbol that a set of the second layout exports, by rising symbol, on 32 pages of external flash.
//!
//! The set's components come out of the inbox or are installed; which they are makes no difference to the table.
//! A record has eight bytes (our own layout): the symbol, the place of its exporter in the set, the kind of its place, and its address. The rest of
//! the pages is 0xFF. No call takes memory, and none holds more than five pages: a merge goes over the exports of all components once, each through
//! a window of eight exports.
#![tactic(auto)]

mod count;
mod cursor;
mod fault;
mod merging;
mod planning;
mod record;
mod table;
mod walk;

pub use count::count_symbols;
pub use fault::MergeFault;
pub use merging::merge;
pub use planning::plan_of_set;
pub use table::{SymbolReader, address_of, read_address};
