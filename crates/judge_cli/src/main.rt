// The program: standard input to one line on standard output.
#![tactic(auto)]

ghost use Rattle.std.specs.Prelude.{IfOk};
ghost use Rattle.judge_cli.specs.Program.{Line, Answers};

use input::Program;
use judge_line::program;
use judge_line::program::READ_BYTES;
use std::io;
use std::io::{Read, Write};

/// What the program says: the line of a file's bytes.
struct Judging;

impl Program<READ_BYTES> for Judging {
    ghost use Rattle.judge_line.proofs.OneLine.{line_of_longer};

    ghost Says = { Line };

    // all inputs that are too long have the line of 42
    ghost longer = { λ xs ys before after l m p. record { line = p.line; prints = line_of_longer xs ys p.line l m p.prints; writes = p.writes } };

    fn print<W: Write>(bytes: &[u8], to: &mut W) -> io::Result<()> {
        to.write_all(program::line_of(bytes).text().as_bytes())
    }
}

/// Writes the line of an input's bytes and says true, or writes nothing and says false where the input could not be read to its end.
// kept: what this program promises, in its own words; all that is done is `print_of`'s
fn answer<R: Read, W: Write>(from: &mut R, to: &mut W) -> io::Result<bool>
    ensures { IfOk result (λ read. Answers (R.remaining from.old) read (W.contents to.old) (W.contents to.new)) }
{
    input::print_of::<READ_BYTES, Judging, _, _>(from, to)
}

// kept: a program has a `main` of its own, which names it; no clause knows what standard input has
fn main(rt: HostRuntime) -> io::Result<()> {
    if answer(&mut rt.stdin(), &mut rt.stdout())? {
        return Ok(());
    }
    rt.stderr().write_all(b"judge_cli: standard input could not be read to its end\n")
}
