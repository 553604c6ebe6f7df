// The two questions about zones, with refusals 31 to 33.
ghost use Rattle.std.specs.Prelude.{◌≡◌, false, true, MatchResult};
ghost use Rattle.answers.specs.Refusals.{answer_of};
ghost use Rattle.zone.specs.Questions.{clocks?, AskedEmpty, AskedInside};
ghost use Rattle.zone.specs.Reading.{read_zone, or_refused};

use crate::clocks::Clocks;
use crate::reading::read_zone;
use crate::zones::Zone;
use answers::{Reason, Refusal};

/// Whether C is in its range.
pub fn good_clocks(clocks: u32) -> bool
    ensures { result ≡ clocks? clocks }
{
    (1 <= clocks) & (clocks <= 4)
}

// C, or refusal 31.
pub(crate) fn asked_clocks(clocks: u32) -> Result<Clocks, Refusal>
    ensures { MatchResult result (λ c. (clocks? clocks ≡ true) × (c.count ≡ clocks)) (λ r. (clocks? clocks ≡ false) × (r ≡ record { reason = Reason.BadClocks; place = 0 })) }
{
    Clocks::of(clocks).ok_or(Reason::BadClocks.at(0))
}

// The zone of a list of bound words, or the refusal for this reason of the first that is no good bound.
#[tactic(auto, unfolding(crate::specs::Reading::or_refused))]
pub(crate) fn asked_zone(clocks: Clocks, list: &[u32], reason: Reason) -> Result<Zone, Refusal>
    ensures { result ≡ or_refused reason (read_zone clocks.count list.now) }
{
    read_zone(clocks, list).map_err(|bad| reason.at(bad.place))
}

/// Is the zone of these bound words, over clocks 1 to `clocks`, empty at every scale?
pub fn zone_empty(clocks: u32, list: &[u32]) -> Result<bool, Refusal>
    ensures { AskedEmpty clocks list.now (answer_of result) }
{
    let clocks = asked_clocks(clocks)?;
    let zone = asked_zone(clocks, list, Reason::BadBound)?;
    Ok(zone.tighten().is_empty())
}

/// Does the zone of the first list lie inside that of the second, over clocks 1 to `clocks`, at every scale?
pub fn zone_inside(clocks: u32, first: &[u32], second: &[u32]) -> Result<bool, Refusal>
    ensures { AskedInside clocks first.now second.now (answer_of result) }
{
    let clocks = asked_clocks(clocks)?;
    let inner = asked_zone(clocks, first, Reason::BadBound)?;
    let outer = asked_zone(clocks, second, Reason::BadSecondBound)?;
    let tight = inner.tighten();
    Ok(tight.is_empty() || tight.inside(outer))
}
