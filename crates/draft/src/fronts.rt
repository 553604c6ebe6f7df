// The location and bounds of the node of a zone, and back to its zone.
ghost use Rattle.std.specs.Prelude.{◌≡◌, ◌≤◌, ◌+◌, ◌<◌, T, Some, OnSome, length};
ghost use Rattle.zone.specs.Reading.{zone_read};
ghost use Rattle.drafting.specs.Words.{bound_word};
ghost use Rattle.drafting.specs.Bounding.{pairs, empty_zone};
ghost use Rattle.draft.specs.Fronts.{narrow_bound?, bound_at, zone_from, collected, row_said, RowAdded, front_for};

use crate::nodes;
use crate::nodes::Front;
use crate::source::Source;
use arrayvec::ArrayVec;
use model::table_kinds::TableKind;
use zone::bounds::Bound;
use zone::clocks::Clocks;
use zone::reading::read_zone;
use zone::zones::Zone;

// Whether the d of a bound is at most 4,095 either way.
#[tactic(auto, using(crate::proofs::KeyWordLaws::narrow_test))]
pub(crate) fn is_narrow(bound: Bound) -> bool
    ensures { result ≡ narrow_bound? bound }
{
    (-8191 < bound.key) & (bound.key < 8192)
}

// The word of such a bound of clock i minus clock j. The key is 2 * d, and one more unless the bound is strict, so that 8,192 more than it is twice the
// word's field, d + 4,096, and one more unless it is strict.
pub(crate) fn bound_word(i: usize, j: usize, bound: Bound) -> u32
    requires { (i < 5) × (j < 5) × T (narrow_bound? bound) }
    ensures { result ≡ bound_word (bound_at i j bound) }
{
    let field = (bound.key + 0x2000) as u32;
    let clocks = i as u32 * 0x100_0000 + j as u32 * 0x10_0000;
    nodes::word(
        TableKind::Bound,
        clocks + (1 - field % 2) * 0x8_0000 + field / 2,
    )
}

// The location and bounds of the node of an empty zone.
// kept: document 02, card 5, names the word of its one bound as a whole.
pub(crate) fn empty_front(location: u32) -> Front
    ensures { Some result ≡ front_for location empty_zone }
{
    let mut bounds = ArrayVec::new();
    bounds.push(0x5100_0FFF);
    Front { location, bounds }
}

// Adds the words of the bounds that a row of a table says of clock i minus other clocks, from clock 0 on; `None` where one of them lies beyond 4,095
// either way.
pub(crate) fn add_row(bounds: &mut ArrayVec<u32, 25>, i: usize, row: &[Bound]) -> Option<()>
    requires { (i < 5) × (length row.now ≤ 5) × (length bounds.old.items ≤ 20) }
    ensures adds { RowAdded result bounds.old.items bounds.new.items (row_said i row.now 0) }
    ensures few { OnSome result (length bounds.new.items ≤ length bounds.old.items + 5) }
{
    for (j, &bound) in row.iter().enumerate() {
        let finite = bound.key < Bound::FINITE_BELOW;
        if (i != j) & finite {
            if !is_narrow(bound) {
                return None;
            }
            bounds.push(bound_word(i, j, bound));
        }
    }
    Some(())
}

// The location and bounds of the node of a tightened zone that is not empty: its finite bounds, for i other than j, by i, then j. There are none where a
// bound lies beyond 4,095 either way.
pub(crate) fn filled_front(location: u32, clocks: Clocks, zone: Zone) -> Option<Front>
    ensures { result ≡ front_for location (collected zone (pairs clocks.count)) }
{
    let many = clocks.count as usize + 1;
    let mut bounds = ArrayVec::new();
    // kept: document 01 has a flat array of 25 bounds, so that row i is a part of it
    for i in 0..many {
        let first = i * 5;
        add_row(&mut bounds, i, &zone.cells[first..first + many])?;
    }
    Some(Front { location, bounds })
}

impl Source<'_> {
    // The location and bounds of the node of a tightened zone, unless a bound lies beyond 4,095 either way.
    #[tactic(auto, unfolding(crate::specs::Fronts::zone_from))]
    pub(crate) fn front(&self, location: u32, zone: Zone) -> Option<Front>
        ensures { result ≡ front_for location (zone_from self.now.model.now.index.clocks zone) }
    {
        if zone.is_empty() {
            return Some(empty_front(location));
        }
        filled_front(location, self.clocks(), zone)
    }

    // The zone of a node, from the words of its bounds.
    #[tactic(auto, unfolding(zone::specs::Reading::zone_read, zone::specs::Reading::outcome_zone))]
    pub(crate) fn zone(&self, front: &Front) -> Zone
        ensures { result ≡ zone_read self.now.model.now.index.clocks front.now.bounds.items }
    {
        read_zone(self.clocks(), &front.bounds).unwrap_or_else(|bad| bad.zone)
    }
}
