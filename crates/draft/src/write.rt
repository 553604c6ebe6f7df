// The words of a draft, put into the lent words.
ghost use Rattle.std.specs.Prelude.{◌≡◌, map, ◌++◌, ◌+◌, ◌^◌, ◌≤◌, ◌<◌, length, drop};
ghost use Rattle.draft.specs.Writing.{row_word, front_text, node_text, nodes_text, draft_text, node_size, nodes_size};

use crate::explore::BLOCKED;
use crate::explored::Explored;
use crate::nodes;
use crate::nodes::{Front, Node};
use crate::values::{Values, WHOLE};
use model::table_kinds::TableKind;

// The word of a code.
#[tactic(auto, unfolding(crate::specs::Writing::row_word))]
pub(crate) fn row_word(code: u8) -> u32
    ensures { result ≡ row_word code }
{
    if code == BLOCKED {
        return nodes::word(TableKind::Blocked, 0);
    }
    nodes::word(TableKind::Successor, code as u32 % 64)
}

// Puts the words of a node's rows.
pub(crate) fn write_rows(words: &mut [u32], rows: &[u8])
    requires { length words.old ≡ length rows.now }
    ensures { words.new ≡ map row_word rows.now }
{
    // kept: of words that an adapter of `iter_mut` has gone over, a proof knows nothing, so they are put by their places
    for (p, &code) in rows.iter().enumerate() {
        words[p] = row_word(code);
    }
}

// Puts a node with its value.
pub(crate) fn write_node(words: &mut [u32], node: &Node, value: u32)
    requires { (length words.old ≡ node_size node.now) × (node.now.front.location < 16) × (value < 2 ^ 28) }
    ensures { words.new ≡ node_text node.now value }
{
    let value_at = 1 + node.front.bounds.len();
    words[0] = nodes::word(TableKind::Node, node.front.location * 0x100_0000);
    words[1..value_at].copy_from_slice(&node.front.bounds);
    words[value_at] = nodes::word(TableKind::Value, value);
    write_rows(&mut words[value_at + 1..], &node.rows);
}

impl Explored<'_> {
    // Puts the nodes with their values.
    pub(crate) fn write_nodes(&self, words: &mut [u32], values: &Values)
        requires { length words.old ≡ nodes_size self.now.nodes.now }
        ensures { words.new ≡ nodes_text self.now.nodes.now values.now.list }
    {
        // kept: where the rest of the words is split off at each node instead, a proof knows nothing of the words put before
        let mut at = 0;
        for (node, &value) in self.nodes.iter().zip(&values.list) {
            let end = at + node.size();
            write_node(&mut words[at..end], node, value);
            at = end;
        }
    }

    // Puts the draft at the front of the lent words, which has so many words as `size`.
    pub(crate) fn write_draft(&self, lent: &mut [u32], size: usize, values: &Values)
        requires { (size ≡ 2 + nodes_size self.now.nodes.now) × (size ≤ length lent.old) }
        ensures { lent.new ≡ draft_text self.now.nodes.now values.now.list ++ drop (length (draft_text self.now.nodes.now values.now.list)) lent.old }
    {
        lent[0] = nodes::word(TableKind::Head, WHOLE);
        self.write_nodes(&mut lent[1..size - 1], values);
        lent[size - 1] = nodes::word(TableKind::StartNode, 0);
    }

    // How many words the draft has, whatever the values.
    pub(crate) fn draft_length(&self) -> usize
        ensures { result ≡ 2 + nodes_size self.now.nodes.now }
    {
        2 + self.nodes.iter().map(Node::size).sum::<usize>()
    }
}
