// A node: its location, the words of its bounds and the codes of its rows; and the words of their kinds.
ghost use Rattle.std.specs.Prelude.{◌≡◌, ◌<◌, ◌≤◌, ◌^◌};
ghost use Rattle.model.specs.TableKinds.{table_number};
ghost use Rattle.drafting.specs.Words.{word};
ghost use Rattle.draft.specs.Writing.{node_size};

use arrayvec::ArrayVec;
use model::table_kinds::TableKind;

/// The location of a node, and the words of its bounds.
#[derive(PartialEq, Eq, Default, Drop)]
pub(crate) struct Front {
    pub location: u32,
    pub bounds: ArrayVec<u32, 25>,
}

/// A node, with the codes of its rows once it is explored.
#[derive(Default, Drop)]
pub(crate) struct Node {
    pub front: Front,
    pub rows: ArrayVec<u8, 128>,
}

impl Node {
    // How many words it has.
    pub(crate) fn size(&self) -> usize
        ensures is { result ≡ node_size self.now }
        ensures small { result ≤ 155 }
    {
        self.front.bounds.len() + 2 + self.rows.len()
    }
}

// The word of a kind, with its other fields.
pub(crate) fn word(kind: TableKind, fields: u32) -> u32
    requires { (table_number kind < 16) × (fields < 2 ^ 28) }
    ensures { result ≡ word (table_number kind) fields }
{
    kind.number() as u32 * 0x1000_0000 + fields
}
