// From the bytes of the input to the draft.
ghost use Rattle.std.specs.Prelude.{◌≡◌, ◌≤◌, length, get_or, drop, IfOk};
ghost use Rattle.answers.specs.Refusals.{answer_of};
ghost use Rattle.draft_cli.specs.Program.{DraftsInput};

use answers::Refusal;
use draft::call;
use judge_line::program::{MOST_WORDS, READ_BYTES};
use judge_line::words;

// What the program takes is a word more than that which judges, the number of rounds.
const ASKED_WORDS: usize = 1 + MOST_WORDS;

pub(crate) const ASKED_BYTES: usize = 4 + READ_BYTES;

// The longest table that can be drafted (`draft-few` of `drafting`): 64 nodes, each with its word, 20 bounds, its value and rows of 128 words, and two
// words around them.
pub(crate) const DRAFT_WORDS: usize = 9602;

/// The first word, or 0 without one.
pub(crate) fn rounds_of(list: &[u32]) -> u64
    ensures { result ≡ get_or list.now 0 0 }
{
    list.first().map_or(0, |word| u64::from(*word))
}

/// The words behind the first.
pub(crate) fn model_of(list: &[u32]) -> &[u32]
    ensures { result.now ≡ drop 1 list.now }
{
    list.get(1..).unwrap_or(&[])
}

/// The length of the draft that the input asks for, in the lent words: 42 and 41 before anything is read as words.
pub(crate) fn drafted(bytes: &[u8], lent: &mut [u32]) -> Result<usize, Refusal>
    ensures drafts { DraftsInput bytes.now lent.old (answer_of result) lent.new }
    ensures fits { IfOk result (λ n. n ≤ length lent.new) }
{
    // first, so that no space is filled for bytes that are refused
    words::check_bytes(bytes, ASKED_WORDS)?;
    let mut space = [0u32; ASKED_WORDS];
    let list = words::put_words(bytes, &mut space);
    call::draft(model_of(list), rounds_of(list), lent)
}
