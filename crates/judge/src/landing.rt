// Where an edge lands: the checks 17 and 18 of its successor, and what it adds to the row's sum (document 02, card 4).
ghost use Rattle.std.specs.Prelude.{◌≡◌, ◌*◌, ◌<◌, ◌^◌, IfOk};
ghost use Rattle.model.specs.Fields.{weight_of};
ghost use Rattle.judge.specs.Looking.{successor_of, AsksSuccessor};

use crate::judging::Judging;
use crate::reaching;
use answers::{Reason, Refusal};
use model::fields;
use table::fields::number_of;
use zone::zones::Zone;

/// What an edge adds to its row's sum: its weight times what it has there.
#[tactic(auto, using(crate::proofs::WalkLaws::product_small))]
pub fn share(edge: u32, value: u32) -> u64
    ensures { (result ≡ weight_of edge * value) × (result < 2 ^ 48) }
{
    fields::weight_of(edge) as u64 * value as u64
}

impl Judging<'_> {
    /// The share of an edge in the row's sum, or the first of the checks 17 and 18 that its successor, named at a place, fails. An edge that can land
    /// outside the invariant of its location has V in the sum, and its successor need hold only the landings inside. `empty` says whether the reach
    /// is. Most edges need the first comparison alone.
    // kept: whether the reach is empty is asked once for a row, not at each edge; an `Option` of it would be opened at each edge
    #[tactic(auto, using(std::proofs::lemmas::Bool::Decides::nat_tests, crate::proofs::ContainedLaws::contained_within, crate::proofs::ReachSizes::landings_tighten), unfolding(crate::specs::Landing::successor_share, crate::specs::Landing::landings_share))]
    pub(crate) fn successor(
        &self,
        reach: Zone,
        empty: bool,
        edge: u32,
        place: usize,
    ) -> Result<u64, Refusal>
        requires { AsksSuccessor self.now reach empty edge place }
        ensures comes { result ≡ successor_of self.now reach edge place }
        ensures small { IfOk result (λ x. x < 2 ^ 48) }
    {
        let s = number_of(self.words[place]) as usize;
        let node = &self.table.nodes[s];
        let to = fields::lands_at(edge) as usize;
        if node.location != to {
            return Err(Reason::WrongLocation.at(place));
        }
        if empty {
            return Ok(share(edge, node.value));
        }
        let landings = reach.reset(fields::mask_of(edge));
        if self.contained[s] && landings.inside(node.zone) {
            return Ok(share(edge, node.value));
        }
        let invariant = self.model.zones[to];
        if landings.inside(invariant) {
            if landings.inside(node.zone) {
                return Ok(share(edge, node.value));
            }
            return Err(Reason::NotInside.at(place));
        }
        let inside = reaching::common(landings, invariant);
        if inside.is_empty() | inside.inside(node.zone) {
            return Ok(share(edge, self.table.whole));
        }
        Err(Reason::NotInside.at(place))
    }
}
