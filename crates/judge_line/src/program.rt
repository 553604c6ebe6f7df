// From the bytes of a file to the line that the program prints.
ghost use Rattle.judge_line.specs.Program.{ProgramAnswers, Prints};
ghost use Rattle.judge_line.specs.Printed.{shown};
ghost use Rattle.answers.specs.Refusals.{answer_of};

use crate::text::Line;
use crate::{parts, words};
use acceptance::certificate::Certificate;
use answers::Refusal;
use judge::verdict;

/// The most words that the program takes: document 01's 65,536 bytes.
pub const MOST_WORDS: usize = 16384;

/// How many bytes to read, so that a longer input shows.
pub const READ_BYTES: usize = 4 * MOST_WORDS + 1;

/// The program's answer to a file's bytes: 42 and 41 before anything is read as words, then the verdict on the model and the table.
#[tactic(auto, using(crate::proofs::Printing::answers_refusal, crate::proofs::Printing::answers_verdict))]
pub(crate) fn judged(bytes: &[u8]) -> Result<Certificate, Refusal>
    ensures { ProgramAnswers bytes.now (answer_of result) }
{
    // first, so that no space is filled for bytes that are refused
    words::check_bytes(bytes, MOST_WORDS)?;
    let mut space = [0u32; MOST_WORDS];
    let (model, table) = parts::parts(words::put_words(bytes, &mut space));
    verdict::judge(model, table)
}

/// The line of a file's bytes.
pub fn line_of(bytes: &[u8]) -> Line
    ensures { Prints bytes.now (shown result) }
{
    Line(judged(bytes))
}
