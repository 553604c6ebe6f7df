// The seven calls for C and Rust. A slice passes as a pointer and then a length. Each of document 01's four, and the draft of document 02, card 5, writes its
// answer to the first four words of a slice that the caller lends, and returns true; where the slice has fewer than four it writes nothing and returns false.
// The two of the board, card 3, hand structs over and back by value; they are the board's calls from Rattle too.
#![tactic(auto)]

mod replies; // replies.rt: each answer as four words

ghost use Rattle.zone.specs.Questions.{AskedEmpty, AskedInside};
ghost use Rattle.model.specs.Reading.{ReadModel};
ghost use Rattle.board.specs.Board.{board};
ghost use Rattle.board.specs.Replies.{submission, Submits, Ranks};
ghost use Rattle.miss_chance.specs.Replies.{Replies, Verdicts, RepliesDraft, certificate_words, counts_words, yes_words};

use board::ranking::Ranking;
use board::submissions::{Ledger, Request, Submitted};
use board::{ranking, submissions};
use draft::call;
use judge::verdict;
use model::read;
use slots::Slot;
use zone::questions;

/// Judges a table against a model.
// kept: model, table and answer side by side, here and below, as C hands them over
pub fn miss_chance_judge(model: &[u32], table: &[u32], answer: &mut [u64]) -> bool
    ensures { Replies (Verdicts model.now table.now) certificate_words answer.old answer.new result }
{
    replies::answered(answer, || verdict::judge(model, table))
}

/// Drafts a table for a model into the words lent for it, with values after so many rounds. A refusal leaves them as they are.
#[tactic(auto, using(crate::proofs::ReplyLaws::draft_not_written, crate::proofs::ReplyLaws::draft_written))]
pub fn miss_chance_draft(model: &[u32], rounds: u64, table: &mut [u32], answer: &mut [u64]) -> bool
    ensures { RepliesDraft model.now rounds table.old table.new answer.old answer.new result }
{
    // kept: of a closure that holds `table` and is not called, no clause says that `table` stays as it is
    if answer.len() < 4 {
        return false;
    }
    replies::put(call::draft(model, rounds, table), answer);
    true
}

/// Reads a model.
pub fn miss_chance_read_model(model: &[u32], answer: &mut [u64]) -> bool
    ensures { Replies (ReadModel model.now) counts_words answer.old answer.new result }
{
    replies::answered(answer, || read::read_model(model))
}

/// Asks whether a zone is empty at every scale.
pub fn miss_chance_zone_empty(clocks: u32, zone: &[u32], answer: &mut [u64]) -> bool
    ensures { Replies (AskedEmpty clocks zone.now) yes_words answer.old answer.new result }
{
    replies::answered(answer, || questions::zone_empty(clocks, zone))
}

/// Asks whether the first zone lies inside the second at every scale.
pub fn miss_chance_zone_inside(
    clocks: u32,
    first: &[u32],
    second: &[u32],
    answer: &mut [u64],
) -> bool
    ensures { Replies (AskedInside clocks first.now second.now) yes_words answer.old answer.new result }
{
    replies::answered(answer, || questions::zone_inside(clocks, first, second))
}

/// Submits a table for a slot. A submission that gets as far as the judge spends one of the allowance, and an accepted one writes the slot.
pub fn miss_chance_submit(
    slots: &mut [Slot],
    ledger: Ledger,
    request: Request,
    model: &[u32],
    table: &[u32],
) -> Submitted
    ensures { Submits (board slots.old ledger) (submission request model.now table.now) result slots.new }
{
    let lent = slots::load(slots);
    let decision = submissions::decide(lent, ledger, request, model, table);
    if let Some(written) = decision.write {
        slots::put(slots, written.at, written.slot);
    }
    decision.submitted
}

/// The held slots in rank.
pub fn miss_chance_rank(slots: &[Slot]) -> Ranking
    ensures { Ranks slots.now result }
{
    ranking::ranked(slots::load(slots))
}
