// Each answer as the four words that a C or Rust caller gets.
ghost use Rattle.std.specs.Prelude.{ℕ, ◌≡◌, ◌<◌, ◌≤◌, true, false, List, [], ◌∷◌, ◌++◌, length, drop, Result};
ghost use Rattle.answers.specs.declared.Refusal.{Refusal};
ghost use Rattle.answers.specs.Refusals.{answer_of};
ghost use Rattle.miss_chance.specs.Replies.{answer_words, certificate_words, counts_words, yes_words, length_words};

use acceptance::certificate::Certificate;
use answers::Refusal;
use model::read::Counts;

/// What an acceptance gives, as the three words behind 0.
pub(crate) trait Words {
    ghost values: { Self → List ℕ };

    fn words(self) -> (u64, u64, u64)
        ensures { values self ≡ result.0 ∷ result.1 ∷ result.2 ∷ [] };
}

impl Words for Certificate {
    ghost values = { certificate_words };

    fn words(self) -> (u64, u64, u64) {
        (u64::from(self.b), u64::from(self.whole), self.nodes as u64)
    }
}

impl Words for Counts {
    ghost values = { counts_words };

    fn words(self) -> (u64, u64, u64) {
        (
            self.locations as u64,
            self.actions as u64,
            self.edges as u64,
        )
    }
}

// Yes or no.
impl Words for bool {
    ghost values = { yes_words };

    fn words(self) -> (u64, u64, u64) {
        (u64::from(self), 0, 0)
    }
}

// The length of a draft.
impl Words for usize {
    ghost values = { length_words };

    fn words(self) -> (u64, u64, u64) {
        (self as u64, 0, 0)
    }
}

/// An answer as four words: the number of a refusal and its place, or 0 and what an acceptance gives. Zeros fill up.
#[tactic(auto, unfolding(answers::specs::Refusals::answer_of))]
pub(crate) fn reply<A: Words>(answer: Result<A, Refusal>) -> [u64; 4]
    ensures { result ≡ answer_words A.values (answer_of answer) }
{
    match answer {
        Ok(value) => {
            let (first, second, third) = value.words();
            [0, first, second, third]
        }
        Err(refusal) => [
            u64::from(refusal.reason.number()),
            refusal.place as u64,
            0,
            0,
        ],
    }
}

/// Writes an answer to the first four words of a slice.
pub(crate) fn put<A: Words>(answer: Result<A, Refusal>, out: &mut [u64])
    requires { 4 ≤ length out.old }
    ensures { out.new ≡ answer_words A.values (answer_of answer) ++ drop 4 out.old }
{
    out[..4].copy_from_slice(&reply(answer));
}

/// Writes what a call answers to the first four words of a slice and says true; where there are fewer it asks nothing, writes nothing and says false.
pub(crate) fn answered<A: Words, F: FnOnce() -> Result<A, Refusal> + Drop>(
    out: &mut [u64],
    call: F,
) -> bool
    requires { F.IsAlwaysCallable call }
    ensures short { length out.old < 4 → (result ≡ false) × (out.new ≡ out.old) }
    ensures long { 4 ≤ length out.old → (result ≡ true) × ((said : Result A Refusal) × (F.post call said × (out.new ≡ answer_words A.values (answer_of said) ++ drop 4 out.old))) }
{
    if out.len() < 4 {
        return false;
    }
    put(call(), out);
    true
}
