// Words as lines of text: eight hex digits each, in capitals.
ghost use Rattle.std.specs.Prelude.{◌≡◌, ◌≤◌, length};
ghost use Rattle.draft_cli.specs.Text.{word_line, lines_of};

/// The line of a word.
#[tactic(auto, using(crate::proofs::LineLaws::word_digits))]
pub(crate) fn word_line(word: u32) -> [u8; 9]
    ensures { result ≡ word_line word }
{
    let mut line = [b'\n'; 9];
    // it has the room that it needs, so that it succeeds
    let _ = hex::encode_to_slice(word.to_be_bytes(), &mut line[..8]);
    line.make_ascii_uppercase();
    line
}

/// The text of words, in the first cells of a slice of lines.
pub(crate) fn text_of<'a>(words: &[u32], lines: &'a mut [[u8; 9]]) -> &'a [u8]
    requires { length words.now ≤ length lines.old }
    ensures { result.now ≡ lines_of words.now }
{
    // kept: by number, since nothing is known of what a `zip` with `iter_mut` leaves
    for (k, word) in words.iter().enumerate() {
        lines[k] = word_line(*word);
    }
    lines[..words.len()].as_flattened()
}
