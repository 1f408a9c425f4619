// The bytes of a plan file: their figures, the integers that they make, and a node's body. Document 01, "Same tree, and the plan file",
// and document 02, (f).
#![tactic(auto)]

pub use planformat::{Edition, Kind, NoEdition, Node, Share, Sort};
use table::Table;

pub mod bodies;
pub mod bytes;

// The figures of a plan's bytes.
#[derive(Clone, Copy)]
pub struct Format {}

impl Format {
    // The four bytes FF before the head of the second edition, and the integer that they make.
    pub const MARK_BYTE: u64 = 0xFF;

    pub const MARK: u64 = 0xFFFFFFFF;

    pub const MARK_LENGTH: usize = 4;

    // Bytes of the head, of an entry, of a short and a long share and of a depth; the greatest count.
    pub const HEAD: usize = 9;

    pub const ENTRY: usize = 4;

    pub const SHORT_SHARE: usize = 2;

    pub const LONG_SHARE: usize = 4;

    pub const DEPTH: usize = 4;

    pub const LAST_COUNT: usize = Table::NODES - 1;

    // Places of the head.
    pub const DISK_RATE: usize = 0;

    pub const ROOT_DEPTH: usize = 4;

    pub const COUNT: usize = 8;

    // Places of an entry, which begins with its node.
    pub const ENTRY_PARENT: usize = 1;

    pub const ENTRY_OFFSET: usize = 2;

    // Places of a body, which begins with its kind.
    pub const BODY_SHARE: usize = 1;
}
