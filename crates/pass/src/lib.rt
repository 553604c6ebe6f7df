// One pass over the words of a file, a model's or a table's: each word is checked and then taken, up to the first that fails a check. Behind it
// the search for a word that names what the file does not have.
#![tactic(auto)]

ghost use Rattle.std.specs.Prelude.{ℕ, Bool, cond, ltb, None, position, ◌≡◌, Ok, IfOk};
ghost use Rattle.pass.specs.Steps.{Steps, Picks, passed_at, pass_from};

use answers::{Reason, Refusal};

/// The words of a kind of file, as a pass reads them. What stays the same during the pass is in `self`.
// kept: each call states `holds`, and is handed what was seen and what is kept apart. What holds of the words is for each reader to say, of `Seen` and of
// itself, so that no value has it (model's is of `Seen` alone, but the fields of that change one by one); and where one call alone may change `seen`, a
// bound that another picks costs less.
pub trait Pass {
    /// What the words read so far come to.
    type Seen: Drop;
    /// What is kept of the words. The pass fills it in place.
    type Kept;

    // The checks of a word, and what it adds.
    ghost steps: { Self → Steps Self.Seen Self.Kept };

    // What holds of the words read so far while no check has failed.
    ghost holds: { Self → Self.Seen → Type 0 };

    /// The checks of the next word: the first that it fails refuses.
    fn check(&self, seen: &Self::Seen, word: u32) -> Result<(), Reason>
        requires { holds self.now seen.now }
        ensures { result ≡ (steps self.now).checked seen.now word };

    /// Takes a word that passes its checks and leaves what was seen as it was, and says whether it did. A word that it leaves goes to `check` and
    /// `take`, so that no reader needs it. Most words of a long file are bounds: picked here, where `seen` stays, a bound of a model takes 49
    /// instructions in place of 60.
    fn pick(&self, seen: &Self::Seen, kept: &mut Self::Kept, word: u32) -> bool
        requires { holds self.now seen.now }
        ensures { Picks (steps self.now) seen.now word kept.old kept.new result }
    {
        false
    }

    /// Takes a word that passes its checks, at a place.
    fn take(&self, seen: &mut Self::Seen, kept: &mut Self::Kept, word: u32, place: usize)
        requires holds { holds self.now seen.old }
        requires passes { (steps self.now).checked seen.old word ≡ Ok tt }
        ensures seen { seen.new ≡ (steps self.now).with_word seen.old word place }
        ensures kept { kept.new ≡ (steps self.now).kept_with seen.old word place kept.old }
        ensures holds { holds self.now seen.new };

    /// Keeps what is known only where the words end.
    fn close(&self, seen: &Self::Seen, kept: &mut Self::Kept)
        requires { holds self.now seen.now }
        ensures { kept.new ≡ (steps self.now).closed seen.now kept.old };

    /// The check where the words end: a word may be missing.
    fn check_end(&self, seen: &Self::Seen) -> Result<(), Reason>
        requires { holds self.now seen.now }
        ensures { result ≡ (steps self.now).checked_end seen.now };
}

/// One pass over the words, from what was seen before them on: what they come to, or the refusal of the first that fails a check or is missing.
/// What is kept of the words before that one stays.
pub fn scan<P: Pass>(
    reader: &P,
    list: &[u32],
    mut seen: P::Seen,
    kept: &mut P::Kept,
) -> Result<P::Seen, Refusal>
    requires { P.holds reader.now seen }
    ensures passes { passed_at result kept.new ≡ pass_from (P.steps reader.now) seen kept.old 0 list.now }
    ensures holds { IfOk result (λ s. P.holds reader.now s) }
{
    for (place, &word) in list.iter().enumerate() {
        if reader.pick(&seen, kept, word) {
            continue;
        }
        if let Err(reason) = reader.check(&seen, word) {
            return Err(reason.at(place));
        }
        reader.take(&mut seen, kept, word, place);
    }
    reader.close(&seen, kept);
    if let Err(reason) = reader.check_end(&seen) {
        return Err(reason.at(list.len()));
    }
    Ok(seen)
}

/// The index of the first word that lacks what it names, where there are `count` and `furthest` is the largest number named. The words are searched
/// only where that one is not there.
pub fn first_missing<F: Fn(u32) -> bool>(
    list: &[u32],
    furthest: u32,
    count: usize,
    lacks: F,
) -> Option<usize>
    requires { F.IsAlwaysCallable lacks }
    ensures { (lacks? : ℕ → Bool) → ((w : ℕ) (b : Bool) → F.post lacks w b → b ≡ lacks? w) → result ≡ cond (ltb furthest count) None (position lacks? list.now) }
{
    if (furthest as usize) < count {
        return None;
    }
    list.iter().position(|&word| lacks(word))
}
