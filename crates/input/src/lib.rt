// The whole of an input, for the programs: it is read, and what a program says of it is printed.
#![tactic(auto)]

ghost use Rattle.std.specs.Prelude.{◌<◌, ◌^◌, length, IfOk};
ghost use Rattle.std.specs.Io.KnownBytes.{IsAtEnd};
ghost use Rattle.input.specs.Reading.{Took, count_of};
ghost use Rattle.input.specs.Answering.{Answers};

use std::io;
use std::io::{Read, Write};

/// A read failed behind so many bytes.
// kept: a count, as std's reads give, since the buffer is the caller's
#[derive(Clone, Copy, Debug)]
pub struct ReadFailed {
    pub count: usize,
    pub error: io::Error,
}

/// A program that prints what it says of its input.
pub trait Program<const MOST: usize> {
    ghost use Rattle.std.specs.Prelude.{ℕ, ◌≤◌, List, Option, OnOk, length};

    /// What is said of some bytes, with the output before and after.
    ghost Says: { List ℕ → Option (List ℕ) → Option (List ℕ) → Type 0 };

    /// Prints what is said of some bytes.
    fn print<W: Write>(bytes: &[u8], to: &mut W) -> io::Result<()>
        ensures { OnOk result (Says bytes.now (W.contents to.old) (W.contents to.new)) };

    /// It does not tell inputs of MOST bytes or more apart.
    ghost longer: { (xs ys : List ℕ) (before after : Option (List ℕ)) → MOST ≤ length xs → MOST ≤ length ys → Says xs before after → Says ys before after };
}

/// Reads until the buffer is full, the input ends or a read fails, and says how many bytes were read. std's `read_to_end` reads again where a read was
/// interrupted, and what came before a failed read is not the input.
pub fn read_input<R: Read>(reader: &mut R, bytes: &mut [u8]) -> Result<usize, ReadFailed>
    ensures reads { Took (R.remaining reader.old) (R.remaining reader.new) bytes.new (count_of result) }
    ensures ends { IfOk result (λ count. count < length bytes.new → IsAtEnd (R.remaining reader.new)) }
{
    let mut count = 0;
    // kept: no index over a list, since each read says how far it came
    while count < bytes.len() {
        match reader.read(&mut bytes[count..]) {
            Ok(0) => break,
            Ok(more) => count += more,
            Err(error) => return Err(ReadFailed { count, error }),
        }
    }
    Ok(count)
}

/// Prints what a program says of an input, of which MOST bytes are enough, and says true; or prints nothing and says false where the input could not be
/// read to its end.
// kept: a bool in a `Result`, since a failed write is the Err, and whether the input was read is what a `main` goes by
pub fn print_of<const MOST: usize, P: Program<MOST>, R: Read, W: Write>(
    from: &mut R,
    to: &mut W,
) -> io::Result<bool>
    requires { MOST < 2 ^ 63 }
    ensures { IfOk result (λ read. Answers P.Says (R.remaining from.old) read (W.contents to.old) (W.contents to.new)) }
{
    let mut bytes = [0u8; MOST];
    let Ok(count) = read_input(from, &mut bytes) else {
        return Ok(false);
    };
    P::print(&bytes[..count], to)?;
    Ok(true)
}
