// Reading a table against a model: refusals 11 to 14, and what judging needs of a table whose words are good.
ghost use Rattle.std.specs.Prelude.{◌≡◌};
ghost use Rattle.table.specs.Scan.{IndexFits};
ghost use Rattle.table.specs.Index.{scanned, lacks_node?, missing_of, read_of};
ghost use Rattle.table.specs.Indexed.{ReadFor};

use crate::due::Rows;
use crate::fields;
use crate::nodes::IndexedTable;
use crate::reader::Reader;
use crate::seen::Seen;
use answers::{Reason, Refusal};
use model::index::Index;
use model::kinds::Follows;
use model::table_kinds::TableKind;

/// Whether a word is of kind B or C and its node is not one of so many.
pub(crate) fn lacks_node(nodes: usize, word: u32) -> bool
    ensures { result ≡ lacks_node? nodes word }
{
    let names = TableKind::Successor.is(word) | TableKind::StartNode.is(word);
    names & (nodes <= fields::number_of(word) as usize)
}

/// The place of the first word whose node is not there.
#[tactic(auto, unfolding(crate::specs::Index::missing_of))]
pub(crate) fn missing_of(list: &[u32], seen: &Seen) -> Option<usize>
    ensures { result ≡ missing_of seen.now list.now }
{
    let nodes = seen.nodes;
    pass::first_missing(list, seen.furthest, nodes, |word| lacks_node(nodes, word))
}

/// Reads a table against a model of that index, and fills in what judging needs of it. Where the words are refused, that is what the words before
/// that place come to.
pub fn index_table(index: &Index, list: &[u32], table: &mut IndexedTable) -> Result<(), Refusal>
    requires { IndexFits index.now }
    ensures computes { result ≡ read_of (scanned index.now list.now table.old) list.now }
    ensures leaves { table.new ≡ (scanned index.now list.now table.old).kept }
    ensures reads { ReadFor index.now list.now result table.new }
{
    table.begin();
    let reader = Reader {
        rows: Rows { index },
        follows: Follows::table(),
    };
    let seen = pass::scan(&reader, list, Seen::NOTHING, table)?;
    match missing_of(list, &seen) {
        Some(place) => Err(Reason::NoNode.at(place)),
        None => Ok(()),
    }
}
