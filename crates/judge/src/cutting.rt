// A node that is cut in two: the checks 51 to 53 of each part of its zone (document 02, card 1).
ghost use Rattle.std.specs.Prelude.{◌≡◌};
ghost use Rattle.judge.specs.Looking.{part_of, cut_of, AsksPart, AsksCut};

use crate::judging::Judging;
use answers::{Reason, Refusal};
use table::fields::number_of;
use zone::zones::Zone;

impl Judging<'_> {
    /// The checks of one part of the node n: its successor, named at a place, has a number above n, the node's location and a value no larger, and
    /// its zone holds the part.
    #[tactic(auto, using(std::proofs::lemmas::Bool::Decides::nat_tests), unfolding(crate::specs::Cutting::part_checked))]
    pub(crate) fn part(&self, part: Zone, n: usize, place: usize) -> Result<(), Refusal>
        requires { AsksPart self.now n place }
        ensures { result ≡ part_of self.now part n place }
    {
        let s = number_of(self.words[place]) as usize;
        if s <= n {
            return Err(Reason::PartNotAbove.at(place));
        }
        let node = &self.table.nodes[n];
        let successor = &self.table.nodes[s];
        let matching = (successor.location == node.location) & (successor.value <= node.value);
        if !matching {
            return Err(Reason::PartMismatch.at(place));
        }
        if part.is_empty() || part.inside(successor.zone) {
            return Ok(());
        }
        Err(Reason::PartNotInside.at(place))
    }

    /// Judges the cut of the node n: the part where the bound of its word of kind D holds, then the rest.
    #[tactic(auto, unfolding(crate::specs::Cutting::cut_checked, crate::specs::Steps::and_then))]
    pub(crate) fn cut(&self, n: usize) -> Result<(), Refusal>
        requires { AsksCut self.now n }
        ensures { result ≡ cut_of self.now n }
    {
        let node = &self.table.nodes[n];
        let at = node.place + 1;
        let word = self.words[at];
        self.part(node.zone.holding_part(word), n, at + 1)?;
        self.part(node.zone.rest_part(word), n, at + 2)
    }
}
