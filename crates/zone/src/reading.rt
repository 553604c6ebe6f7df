// Bound words read into a zone.
ghost use Rattle.std.specs.Prelude.{◌≡◌, ◌<◌};
ghost use Rattle.zone.specs.Words.{bound_of};
ghost use Rattle.zone.specs.Reading.{with_word, read_zone};

use crate::clocks::Clocks;
use crate::words;
use crate::zones::Zone;

impl Zone {
    /// Picks the tighter of a bound word's bound and the one at its cell, in place.
    #[tactic(auto, unfolding(crate::specs::Reading::with_word, crate::specs::Squares::with_bound))]
    pub fn add_bound(&mut self, word: u32)
        requires { ((bound_of word).i < 5) × ((bound_of word).j < 5) }
        ensures { self.new ≡ with_word word self.old }
    {
        let p = words::cell_of(word);
        self.cells[p] = self.cells[p].tighter_of(words::bound_of(word));
    }
}

/// The first word that is no good bound: its place, and the zone of the words before it.
#[derive(Clone, Copy, Debug, PartialEq, Eq)]
pub struct BadWord {
    pub place: usize,
    pub zone: Zone,
}

/// The zone of a list of bound words, or the first word that is no good bound.
pub fn read_zone(clocks: Clocks, list: &[u32]) -> Result<Zone, BadWord>
    ensures { result ≡ read_zone clocks.count list.now }
{
    let mut zone = Zone::universe();
    for (at, &word) in list.iter().enumerate() {
        if !words::good_bound(clocks.count, word) {
            return Err(BadWord { place: at, zone });
        }
        zone.add_bound(word);
    }
    Ok(zone)
}
