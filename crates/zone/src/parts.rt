// The two parts of a zone that is cut by the bound of a word: where the bound holds, and the rest (document 02, card 1).
ghost use Rattle.std.specs.Prelude.{◌≡◌};
ghost use Rattle.zone.specs.Parts.{holding_square, rest_square, CutBy};

use crate::words;
use crate::zones::Zone;

impl Zone {
    /// The part where the bound holds, tightened.
    #[tactic(auto, using(crate::proofs::PartLaws::holding_fits), unfolding(crate::specs::Parts::holding_square))]
    pub fn holding_part(mut self, word: u32) -> Zone
        requires { CutBy word self }
        ensures { result ≡ holding_square word self }
    {
        self.add_bound(word);
        self.tighten()
    }

    /// The rest, where it does not hold, tightened: there the negated bound of the clocks the other way round holds.
    #[tactic(auto, using(crate::proofs::PartLaws::cut_small, crate::proofs::PartLaws::rest_fits), unfolding(crate::specs::Parts::rest_square))]
    pub fn rest_part(self, word: u32) -> Zone
        requires { CutBy word self }
        ensures { result ≡ rest_square word self }
    {
        let i = words::first_clock(word) as usize;
        let j = words::second_clock(word) as usize;
        self.with_bound(j, i, words::bound_of(word).negated())
            .tighten()
    }
}
