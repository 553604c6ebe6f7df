// What judging looks at: the words of the table, and what is kept of the model and of the table.
ghost use Rattle.std.specs.Prelude.{take};
ghost use Rattle.judge.specs.Reaching.{Contained};

use model::index::IndexedModel;
use table::nodes::IndexedTable;

/// A table that is judged against a model: the table's words, what is kept of the model and of the table, and which of its nodes have zones within
/// their invariants by their bounds.
#[derive(Clone, Copy)]
pub(crate) struct Judging<'a> {
    pub words: &'a [u32],
    pub model: &'a IndexedModel,
    pub table: &'a IndexedTable,
    pub contained: &'a [bool; 64],
    ghost flags: { Contained model.now.zones (take table.now.count table.now.nodes) contained.now },
}
