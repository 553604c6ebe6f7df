// The call that drafts a table for a model.
ghost use Rattle.std.specs.Prelude.{◌≡◌, ℕ, List, length};
ghost use Rattle.answers.specs.Checks.{accepted};
ghost use Rattle.answers.specs.Refusals.{answer_of};
ghost use Rattle.model.specs.Reading.{ReadModel};
ghost use Rattle.model.specs.Indexed.{KeptFor};
ghost use Rattle.drafting.specs.Drafting.{length_of, lent_after, Drafted, CertifiesWritten};
ghost use Rattle.draft.specs.Writing.{drafted_in, last_answer};

use crate::explored::Explored;
use crate::graph::ZoneGraph;
use crate::source::Source;
use answers::{Reason, Refusal};
use arrayvec::ArrayVec;
use model::index::IndexedModel;
use model::read::{ModelRead, index_model};

// The draft of what is found, put into the lent words if they are enough. Rounds above 1,000 count as 1,000.
pub(crate) fn finish(explored: &Explored, rounds: u64, lent: &mut [u32]) -> Result<usize, Refusal>
    ensures answers { answer_of result ≡ length_of (last_answer (length lent.old) (drafted_in explored.now.source.model.now explored.now.nodes.now rounds)) }
    ensures writes { lent.new ≡ lent_after (last_answer (length lent.old) (drafted_in explored.now.source.model.now explored.now.nodes.now rounds)) lent.old }
{
    let length = explored.draft_length();
    if lent.len() < length {
        return Err(Reason::TooFewWords.at(0));
    }
    let values = explored.values_after(rounds.min(1000));
    explored.write_draft(lent, length, &values);
    Ok(length)
}

// The draft of a model that was read. It stands apart from `draft` so that a model that is refused fills no nodes.
// kept: rounds and lent words are what a caller hands over; a struct of them would be made and taken apart once.
pub(crate) fn drafted(
    source: &Source,
    read: ModelRead,
    rounds: u64,
    lent: &mut [u32],
) -> Result<usize, Refusal>
    ensures drafts { (words : List ℕ) → ReadModel words (accepted read.counts) → KeptFor words read source.now.model.now → Drafted words rounds lent.old (answer_of result) lent.new }
    ensures certifies { (words : List ℕ) → ReadModel words (accepted read.counts) → KeptFor words read source.now.model.now → CertifiesWritten words (answer_of result) lent.new }
{
    let mut graph = ZoneGraph {
        nodes: ArrayVec::new(),
    };
    graph
        .explore(source, read.initial)
        .map_err(|reason| reason.at(0))?;
    let explored = Explored {
        source: *source,
        nodes: &graph.nodes,
    };
    finish(&explored, rounds, lent)
}

/// Drafts a table for a model into the lent words, with values after so many rounds: the length of the draft. A refusal leaves the words as they are;
/// those of the model have its place.
// kept: a length beside the lent words: the call from C hands it on, and the words are the caller's.
pub fn draft(model: &[u32], rounds: u64, lent: &mut [u32]) -> Result<usize, Refusal>
    ensures drafts { Drafted model.now rounds lent.old (answer_of result) lent.new }
    ensures certifies { CertifiesWritten model.now (answer_of result) lent.new }
{
    let mut indexed = IndexedModel::EMPTY;
    let read = index_model(model, &mut indexed)?;
    let source = Source { model: &indexed };
    drafted(&source, read, rounds, lent)
}
