// The words of a file's bytes, highest byte first.
ghost use Rattle.std.specs.Prelude.{◌≡◌, ◌/◌, ◌≤◌, length, take, MatchResult};
ghost use Rattle.judge_line.specs.Bytes.{words_of};
ghost use Rattle.judge_line.specs.Words.{AreWords, FitWords, NoWords};

use answers::{Reason, Refusal};

/// Puts the words of the bytes into the first cells of a slice.
pub fn to_words(bytes: &[u8], words: &mut [u32])
    requires { length bytes.now / 4 ≤ length words.old }
    ensures { take (length bytes.now / 4) words.new ≡ words_of bytes.now }
{
    let (fours, _) = bytes.as_chunks::<4>();
    // kept: by number, since nothing is known of what a `zip` with `iter_mut` leaves
    for (k, four) in fours.iter().enumerate() {
        words[k] = u32::from_be_bytes(*four);
    }
}

/// Before anything is read as words: 42 where the bytes are more than so many words, then 41 where they are no words. It takes no space for the words, so
/// that a program can ask before it fills any.
pub fn check_bytes(bytes: &[u8], most: usize) -> Result<(), Refusal>
    ensures { MatchResult result (λ _. FitWords most bytes.now) (NoWords most bytes.now) }
{
    if most < bytes.len().div_ceil(4) {
        return Err(Reason::TooLong.at(0));
    }
    if bytes.len() % 4 != 0 {
        return Err(Reason::NotWords.at(0));
    }
    Ok(())
}

/// The words of the bytes, put into the first cells of a slice that has room for them.
pub fn put_words<'a>(bytes: &[u8], words: &'a mut [u32]) -> &'a [u32]
    requires { length bytes.now / 4 ≤ length words.old }
    ensures { result.now ≡ words_of bytes.now }
{
    to_words(bytes, words);
    &words[..bytes.len() / 4]
}

/// The words of the bytes, in the first cells of a slice. Before anything is read as words, 42 where they are too many for it; then 41 where they are no words.
// kept: for whoever has space of its own; the programs ask first, and fill theirs only then
pub fn words_in<'a>(bytes: &[u8], words: &'a mut [u32]) -> Result<&'a [u32], Refusal>
    ensures { MatchResult result (λ list. AreWords (length words.old) bytes.now list.now) (NoWords (length words.old) bytes.now) }
{
    check_bytes(bytes, words.len())?;
    Ok(put_words(bytes, words))
}
