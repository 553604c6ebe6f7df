// The walk over nodes, rows and successors, up to the first of the checks 15 to 19, or 51 to 53 of a cut, that fails.
ghost use Rattle.std.specs.Prelude.{◌≡◌};
ghost use Rattle.judge.specs.Looking.{rows_of, node_of, all_of, AsksRows, AsksNode, AsksAll};

use crate::judging::Judging;
use crate::reaching;
use answers::{Reason, Refusal};
use model::places::GUARDS;
use model::table_kinds::TableKind;

impl Judging<'_> {
    /// Judges the rows of the node n, row by row and successor by successor. The first check that fails leaves both loops, with its place.
    pub(crate) fn rows(&self, n: usize) -> Result<(), Refusal>
        requires { AsksRows self.now n }
        ensures { result ≡ rows_of self.now n }
    {
        let node = &self.table.nodes[n];
        let actions = self.model.index.actions_of(node.location);
        if actions.is_empty() {
            return Ok(());
        }
        let waited = reaching::waited(node.zone, self.model.zones[node.location]);
        let mut at = node.place + 1;
        // kept: a label, by which document 01 has both loops left, and `at`, since the words go on from row to row
        'rows: {
            for a in actions {
                let reach = reaching::common(waited, self.model.zones[GUARDS + a]);
                let empty = reach.is_empty();
                if TableKind::Blocked.is(self.words[at]) {
                    if !empty {
                        break 'rows Err(Reason::NotBlocked.at(at));
                    }
                    at += 1;
                    continue;
                }
                let limit = self.model.index.denominator as u64 * node.value as u64;
                let edges = &self.model.edges[self.model.index.edges_of(a)];
                let mut sum = 0;
                for (e, &edge) in edges.iter().enumerate() {
                    match self.successor(reach, empty, edge, at + e) {
                        Ok(share) => sum += share,
                        Err(refusal) => break 'rows Err(refusal),
                    }
                }
                if limit < sum {
                    break 'rows Err(Reason::SumTooLarge.at(at));
                }
                at += edges.len();
            }
            Ok(())
        }
    }

    /// Judges the node n: the value of a target, the cut, or the rows.
    #[tactic(auto, using(std::proofs::lemmas::Bool::Decides::nat_tests), unfolding(crate::specs::Walk::node_checked))]
    pub(crate) fn node(&self, n: usize) -> Result<(), Refusal>
        requires { AsksNode self.now n }
        ensures { result ≡ node_of self.now n }
    {
        let node = &self.table.nodes[n];
        if self.model.index.targets[node.location] {
            if node.value == self.table.whole {
                return Ok(());
            }
            return Err(Reason::BadTargetValue.at(node.place));
        }
        if TableKind::Cut.is(self.words[node.place + 1]) {
            return self.cut(n);
        }
        self.rows(n)
    }

    /// Judges node by node.
    #[tactic(auto, using(std::proofs::lemmas::Result::err_from_is_err_and, crate::proofs::WalkLaws::nodes_begin, crate::proofs::WalkLaws::nodes_end, crate::proofs::WalkLaws::node_found, crate::proofs::WalkLaws::node_next))]
    pub(crate) fn all(&self) -> Result<(), Refusal>
        requires { AsksAll self.now }
        ensures { result ≡ all_of self.now }
    {
        // kept: a range, since a node is judged by its number: with the node beside it, four functions would take both
        for n in 0..self.table.count {
            self.node(n)?;
        }
        Ok(())
    }
}
