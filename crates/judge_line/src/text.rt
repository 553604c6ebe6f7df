// The line that the program prints of an answer.
ghost use Rattle.std.specs.Prelude.{◌≡◌, Some};
ghost use Rattle.answers.specs.Checks.{refused, accepted};
ghost use Rattle.judge_line.specs.Text.{line_of};
ghost use Rattle.judge_line.specs.Printed.{shown};

use acceptance::certificate::Certificate;
use answers::Refusal;
use arrayvec::ArrayString;
use itoa::Buffer;
use std::fmt;

/// The bytes of the longest line, which has three numbers of at most twenty digits.
pub const LONGEST: usize = 72;

/// `REFUSED number place` and a line feed, whatever the number, gathered on the stack, so that it can be written at once.
// kept: a number and no `Reason`, so that a refusal of a caller's own has a line too; with no `write!`, since of one into a text of so many bytes no clause
// says that it succeeds
pub fn refused_line(number: u32, place: usize) -> ArrayString<LONGEST>
    ensures { result.bytes ≡ line_of (refused number place) }
{
    let mut text = ArrayString::new();
    let mut digits = Buffer::new();
    text.push_str("REFUSED ");
    text.push_str(digits.format(number));
    text.push_str(" ");
    text.push_str(digits.format(place));
    text.push_str("\n");
    text
}

/// `ACCEPTED b V nodes` and a line feed.
// kept: with no `write!`, as above
pub(crate) fn accepted_line(certificate: Certificate) -> ArrayString<LONGEST>
    ensures { result.bytes ≡ line_of (accepted certificate) }
{
    let Certificate { b, whole, nodes } = certificate;
    let mut text = ArrayString::new();
    let mut digits = Buffer::new();
    text.push_str("ACCEPTED ");
    text.push_str(digits.format(b));
    text.push_str(" ");
    text.push_str(digits.format(whole));
    text.push_str(" ");
    text.push_str(digits.format(nodes));
    text.push_str("\n");
    text
}

/// The line of an answer: `ACCEPTED b V nodes` or `REFUSED number place`, and a line feed.
#[derive(Clone, Copy)]
pub struct Line(pub Result<Certificate, Refusal>);

impl Line {
    /// Its text.
    pub fn text(&self) -> ArrayString<LONGEST>
        ensures { result.bytes ≡ shown self.now }
    {
        match self.0 {
            Ok(certificate) => accepted_line(certificate),
            Err(refusal) => refused_line(refusal.reason.number(), refusal.place),
        }
    }
}

impl fmt::Display for Line {
    ghost output = { λ line. Some (shown line) };

    // the whole text in one write
    fn fmt<W: fmt::Write>(&self, f: &mut fmt::Formatter<W>) -> fmt::Result {
        f.write_str(self.text().as_str())
    }
}
