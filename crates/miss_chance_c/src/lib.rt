// The seven calls of `miss_chance` as a static library for C and Rust, under the same names and with the same promises. A slice passes as a pointer and then
// a length.
// kept: each call once more, since a crate is a library for C or for Rattle, not both (docs/DECISIONS.md)
#![tactic(auto)]

ghost use Rattle.zone.specs.Questions.{AskedEmpty, AskedInside};
ghost use Rattle.model.specs.Reading.{ReadModel};
ghost use Rattle.board.specs.Board.{board};
ghost use Rattle.board.specs.Replies.{submission, Submits, Ranks};
ghost use Rattle.miss_chance.specs.Replies.{Replies, Verdicts, RepliesDraft, certificate_words, counts_words, yes_words};

use board::ranking::Ranking;
use board::submissions::{Ledger, Request, Submitted};
use slots::Slot;

// Judges a table against a model.
#[unsafe(no_mangle)]
pub extern "C" fn miss_chance_judge(model: &[u32], table: &[u32], answer: &mut [u64]) -> bool
    ensures { Replies (Verdicts model.now table.now) certificate_words answer.old answer.new result }
{
    miss_chance::miss_chance_judge(model, table, answer)
}

// Drafts a table for a model into the words lent for it, with values after so many rounds. A refusal leaves them as they are.
#[unsafe(no_mangle)]
pub extern "C" fn miss_chance_draft(
    model: &[u32],
    rounds: u64,
    table: &mut [u32],
    answer: &mut [u64],
) -> bool
    ensures { RepliesDraft model.now rounds table.old table.new answer.old answer.new result }
{
    miss_chance::miss_chance_draft(model, rounds, table, answer)
}

// Reads a model.
#[unsafe(no_mangle)]
pub extern "C" fn miss_chance_read_model(model: &[u32], answer: &mut [u64]) -> bool
    ensures { Replies (ReadModel model.now) counts_words answer.old answer.new result }
{
    miss_chance::miss_chance_read_model(model, answer)
}

// Asks whether a zone is empty at every scale.
#[unsafe(no_mangle)]
pub extern "C" fn miss_chance_zone_empty(clocks: u32, zone: &[u32], answer: &mut [u64]) -> bool
    ensures { Replies (AskedEmpty clocks zone.now) yes_words answer.old answer.new result }
{
    miss_chance::miss_chance_zone_empty(clocks, zone, answer)
}

// Asks whether the first zone lies inside the second at every scale.
#[unsafe(no_mangle)]
pub extern "C" fn miss_chance_zone_inside(
    clocks: u32,
    first: &[u32],
    second: &[u32],
    answer: &mut [u64],
) -> bool
    ensures { Replies (AskedInside clocks first.now second.now) yes_words answer.old answer.new result }
{
    miss_chance::miss_chance_zone_inside(clocks, first, second, answer)
}

// Submits a table for a slot. A submission that gets as far as the judge spends one of the allowance, and an accepted one writes the slot.
#[unsafe(no_mangle)]
pub extern "C" fn miss_chance_submit(
    slots: &mut [Slot],
    ledger: Ledger,
    request: Request,
    model: &[u32],
    table: &[u32],
) -> Submitted
    ensures { Submits (board slots.old ledger) (submission request model.now table.now) result slots.new }
{
    miss_chance::miss_chance_submit(slots, ledger, request, model, table)
}

// The held slots in rank.
#[unsafe(no_mangle)]
pub extern "C" fn miss_chance_rank(slots: &[Slot]) -> Ranking
    ensures { Ranks slots.now result }
{
    miss_chance::miss_chance_rank(slots)
}
