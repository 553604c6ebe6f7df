// The reader of a table's words: what a pass over them asks of each word, and what it keeps of it.
use crate::due::Rows;
use crate::fields;
use crate::nodes::IndexedTable;
use crate::seen::Seen;
use answers::Reason;
use model::kinds::Follows;
use model::table_kinds::TableKind;
use pass::Pass;
use zone::words;
use zone::zones::Zone;

/// Reads the words of a table against a model's index, by the constant table.
#[derive(Clone, Copy)]
pub(crate) struct Reader<'a> {
    pub rows: Rows<'a>,
    pub follows: Follows,
}

impl Reader<'_> {
    ghost use Rattle.std.specs.Prelude.{◌≡◌, true, Ok};
    ghost use Rattle.zone.specs.Words.{kind};
    ghost use Rattle.model.specs.TableKinds.{table_number};
    ghost use Rattle.model.specs.Openers.{table_opener?};
    ghost use Rattle.table.specs.Scan.{checked};

    /// Whether a word is a bound that passes its checks: no row asks for it, and it has no limit.
    // kept: its kind is asked by number, since this is asked of every word. Model's is alike, but what may follow and the fields are each file's own.
    #[tactic(auto, using(crate::proofs::Passing::bound_passes))]
    pub(crate) fn good_bound(&self, seen: &Seen, word: u32) -> bool
        requires { table_opener? (table_number seen.now.opener) ≡ true }
        ensures { result ≡ true → (kind word ≡ 5) × (checked self.now.rows.index.now seen.now word ≡ Ok tt) }
    {
        words::kind_of(word) == words::BOUND
            && self.follows.in_table(seen.opener, word)
            && words::bound_fields(self.rows.index.clocks, word)
    }
}

impl Pass for Reader<'_> {
    ghost use Rattle.table.specs.Scan.{WithinLimits};
    ghost use Rattle.table.specs.Index.{steps};

    type Seen = Seen;

    type Kept = IndexedTable;

    ghost steps = { λ r. steps r.rows.index.now };

    ghost holds = { λ r s. WithinLimits r.rows.index.now s };

    #[tactic(auto, unfolding(crate::specs::Scan::checked))]
    fn check(&self, seen: &Seen, word: u32) -> Result<(), Reason> {
        if !(self.follows.in_table(seen.opener, word) & seen.rows_allow(word)) {
            return Err(Reason::BadTableKind);
        }
        if !seen.fields(self.rows.index, word) {
            return Err(Reason::BadTableField);
        }
        if !seen.limit(word) {
            return Err(Reason::OverTableLimit);
        }
        Ok(())
    }

    fn pick(&self, seen: &Seen, table: &mut IndexedTable, word: u32) -> bool {
        if !self.good_bound(seen, word) {
            return false;
        }
        table.nodes[seen.nodes - 1].zone.add_bound(word);
        true
    }

    // A node's zone begins as every valuation, each bound is picked there, and the value completes what is kept of the node.
    #[tactic(auto, unfolding(crate::specs::Scan::seen_with, crate::specs::Scan::seen_with_kind, crate::specs::Index::kept_with, crate::specs::Index::kept_with_kind))]
    fn take(&self, seen: &mut Seen, table: &mut IndexedTable, word: u32, place: usize) {
        match TableKind::of(word) {
            TableKind::Bound => table.nodes[seen.nodes - 1].zone.add_bound(word),
            TableKind::Head => {
                seen.add_head(word);
                table.whole = seen.whole;
            }
            TableKind::Node => {
                table.nodes[seen.nodes].zone = Zone::universe();
                seen.add_node(word);
                table.count = seen.nodes;
            }
            TableKind::Value => {
                table.nodes[seen.nodes - 1].complete(seen.location, word, place);
                seen.add_value(self.rows);
            }
            TableKind::Blocked => seen.add_row(self.rows, TableKind::Blocked),
            TableKind::Successor => seen.add_successor(self.rows, word),
            TableKind::StartNode => {
                seen.add_start(word);
                table.start = fields::number_of(word);
                table.place = place;
            }
            TableKind::Cut => seen.add_cut(),
            TableKind::None => {}
        }
    }

    fn close(&self, _seen: &Seen, _table: &mut IndexedTable) {}

    // Unless the start node was read, a word is missing.
    #[tactic(auto, unfolding(crate::specs::Scan::checked_end))]
    fn check_end(&self, seen: &Seen) -> Result<(), Reason> {
        if seen.opener != TableKind::StartNode {
            return Err(Reason::BadTableKind);
        }
        Ok(())
    }
}
