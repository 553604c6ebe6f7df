// What is kept of a table: its nodes with their zones, and beside them V, how many nodes there are, and the start node.
ghost use Rattle.std.specs.Prelude.{◌≡◌};
ghost use Rattle.table.specs.Nodes.{unread, completed, begun};

use crate::fields;
use zone::zones::Zone;

/// What is kept of a node's words: its location, its value, the index of its value word, and its zone. Its rows or its cut stand behind that word.
#[derive(Clone, Copy, Debug, PartialEq, Eq)]
pub struct Node {
    pub location: usize,
    pub place: usize,
    pub value: u32,
    pub zone: Zone,
}

impl Default for Node {
    // Of no node: what stands at a place before a node is read into it.
    fn default() -> Node
        ensures { result ≡ unread }
    {
        Node {
            location: 0,
            place: 0,
            value: 0,
            zone: Zone::ZEROS,
        }
    }
}

impl Node {
    /// Completes a node at a location with its value word at a place.
    pub(crate) fn complete(&mut self, location: usize, word: u32, place: usize)
        ensures { self.new ≡ completed location word place self.old }
    {
        self.location = location;
        self.value = fields::value_of(word);
        self.place = place;
    }
}

/// What judging needs of a table whose words are good: V, how many nodes it has, the number of the start node with the index of its word, and the
/// nodes. Of other words it has what the words before the refusal come to.
// kept: an array beside its count, and no vector: a word names a node by a number below 64, so each look-up of judging stands with no fact about
// the count
// Before a table is read into it, it is the default: a constant was filled apart and copied, with 1,300 instructions more in each call.
#[derive(Clone, Copy, Debug, PartialEq, Eq, Default)]
pub struct IndexedTable {
    pub whole: u32,
    pub count: usize,
    pub start: u32,
    pub place: usize,
    pub nodes: [Node; 64],
}

impl IndexedTable {
    /// Begins with no word: no V, no node and no start node.
    pub(crate) fn begin(&mut self)
        ensures { self.new ≡ begun self.old }
    {
        self.whole = 0;
        self.count = 0;
        self.start = 0;
        self.place = 0;
    }
}
