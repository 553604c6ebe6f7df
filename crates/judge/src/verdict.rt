// The call that judges a table against a model.
ghost use Rattle.std.specs.Prelude.{◌≡◌, ◌<◌};
ghost use Rattle.answers.specs.Checks.{accepted};
ghost use Rattle.answers.specs.Refusals.{answer_of};
ghost use Rattle.model.specs.Reading.{ReadModel};
ghost use Rattle.model.specs.Indexed.{KeptFor};
ghost use Rattle.acceptance.specs.Judging.{Judged, Exactly, BoundsSchedulers};
ghost use Rattle.judge.specs.Looking.{start_of};

use crate::judging::Judging;
use crate::reaching;
use acceptance::certificate::Certificate;
use answers::{Reason, Refusal};
use model::index::IndexedModel;
use model::read::{ModelRead, index_model};
use table::nodes::IndexedTable;
use table::read::index_table;
use zone::zones::Zone;

impl Judging<'_> {
    /// The last checks: the start node has the start location, and its zone holds the start valuations, whose zone is `initial`. Then the table
    /// certifies the start node's value, of V.
    #[tactic(auto, using(std::proofs::lemmas::Bool::Decides::nat_tests), unfolding(crate::specs::Deciding::start_verdict))]
    pub(crate) fn start(&self, initial: Zone) -> Result<Certificate, Refusal>
        requires { self.now.table.now.start < 64 }
        ensures { result ≡ start_of self.now initial }
    {
        let node = &self.table.nodes[self.table.start as usize];
        if node.location != self.model.index.start as usize {
            return Err(Reason::WrongStart.at(self.table.place));
        }
        if !initial.inside(node.zone) {
            return Err(Reason::StartNotInside.at(self.table.place));
        }
        Ok(Certificate {
            b: node.value,
            whole: self.table.whole,
            nodes: self.table.count,
        })
    }
}

/// Judges a table against an accepted model, from what reading it gave and what is kept of it: what the table certifies, or the refusal of its words, of
/// its nodes, or of its start node.
// kept: a function of its own, behind the model's acceptance. The compiler fills a function's structs where its code begins, so that in `judge` itself the
// table would be filled for a refused model too, and twice for an accepted one (tried). The model's words are there for the clauses alone.
pub(crate) fn judge_kept(
    model: &[u32],
    read: &ModelRead,
    kept: &IndexedModel,
    table: &[u32],
) -> Result<Certificate, Refusal>
    requires accepts { ReadModel model.now (accepted read.now.counts) }
    requires keeps { KeptFor model.now read.now kept.now }
    ensures answers { Judged model.now table.now (answer_of result) }
    ensures exactly { Exactly model.now table.now (answer_of result) }
    ensures bounds { BoundsSchedulers model.now (answer_of result) }
{
    let mut indexed_table = IndexedTable::default();
    index_table(&kept.index, table, &mut indexed_table)?;
    let nodes = &indexed_table.nodes[..indexed_table.count];
    let judging = Judging {
        words: table,
        model: kept,
        table: &indexed_table,
        contained: &reaching::contained(nodes, &kept.zones),
    };
    judging.all()?;
    judging.start(read.initial)
}

/// Judges a table against a model: what it certifies, or the model's refusal first, then that of the table's words, of its nodes, and of its start
/// node. The place of a refusal 1 to 6 is in the model, of the others in the table.
pub fn judge(model: &[u32], table: &[u32]) -> Result<Certificate, Refusal>
    ensures answers { Judged model.now table.now (answer_of result) }
    ensures exactly { Exactly model.now table.now (answer_of result) }
    ensures bounds { BoundsSchedulers model.now (answer_of result) }
{
    let mut indexed_model = IndexedModel::EMPTY;
    let answer = index_model(model, &mut indexed_model);
    // kept: `let .. else`, by which document 01 has the model's answer taken apart
    let Ok(read) = answer else {
        return Err(answer.unwrap_err());
    };
    judge_kept(model, &read, &indexed_model, table)
}
