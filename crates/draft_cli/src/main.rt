// The program that drafts: standard input, the number of rounds and then a model, to the words of a table on standard output, or a refusal.
#![tactic(auto)]

ghost use Rattle.std.specs.Prelude.{IfOk};
ghost use Rattle.draft_cli.specs.Program.{Draft, Answers};

mod lines; // lines.rt: words as lines of text
mod program; // program.rt: from the bytes of the input to the draft

use crate::program::{ASKED_BYTES, DRAFT_WORDS};
use input::Program;
use judge_line::text::Line;
use std::io;
use std::io::{Read, Write};

/// What the program says: the words of a draft, or the line of a refusal.
struct Drafting;

impl Program<ASKED_BYTES> for Drafting {
    ghost use Rattle.std.proofs.Common.{arith};

    ghost Says = { Draft };

    // all inputs that are too long have the line of 42
    ghost longer = { λ xs ys before after l m d. record {
      lent = d.lent;
      answer = d.answer;
      table = d.table;
      many = d.many;
      drafts = record { long = λ _. d.drafts.long (omega arith); broken = λ k. absurd (omega arith); words = λ k. absurd (omega arith) };
      writes = d.writes;
    } };

    fn print<W: Write>(bytes: &[u8], to: &mut W) -> io::Result<()> {
        let mut table = [0u32; DRAFT_WORDS];
        match program::drafted(bytes, &mut table) {
            Ok(length) => {
                let mut text = [[0u8; 9]; DRAFT_WORDS];
                to.write_all(lines::text_of(&table[..length], &mut text))
            }
            Err(refusal) => to.write_all(Line(Err(refusal)).text().as_bytes()),
        }
    }
}

/// Writes what is said of an input's bytes, the words of a draft or the line of a refusal, and says true; or writes nothing and says false where the input
/// could not be read to its end.
// kept: what this program promises, in its own words; all that is done is `print_of`'s
fn answer<R: Read, W: Write>(from: &mut R, to: &mut W) -> io::Result<bool>
    ensures { IfOk result (λ read. Answers (R.remaining from.old) read (W.contents to.old) (W.contents to.new)) }
{
    input::print_of::<ASKED_BYTES, Drafting, _, _>(from, to)
}

// kept: a program has a `main` of its own, which names it; no clause knows what standard input has
fn main(rt: HostRuntime) -> io::Result<()> {
    if answer(&mut rt.stdin(), &mut rt.stdout())? {
        return Ok(());
    }
    rt.stderr().write_all(b"draft_cli: standard input could not be read to its end\n")
}
