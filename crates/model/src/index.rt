// What is kept of a model: its parts by number, that is which location has which actions and which action which edges, its edge words and its zones.
ghost use Rattle.std.specs.Prelude.{◌<◌, ◌≡◌};
ghost use Rattle.model.specs.Index.{actions_range, edges_range};

use std::ops::Range;
use zone::zones::Zone;

/// The parts of a model, numbered through the file from 0. Location l has the actions from actions[l] up to actions[l + 1], action a the edges
/// from edges[a] up to edges[a + 1]; `actions_of` and `edges_of` give these ranges.
// kept: where a part ends the next one begins, so that one number each says all. Ranges in structs would say every number twice, be written again at
// each action and each edge, and need a last entry as well. `targets` stands apart, since `actions` has one entry more than there are locations.
#[derive(Clone, Copy, Debug, PartialEq, Eq)]
pub struct Index {
    pub clocks: u32,
    pub denominator: u32,
    pub locations: usize,
    pub start: u32,
    pub targets: [bool; 16],
    pub actions: [u8; 17],
    pub edges: [u8; 33],
}

impl Index {
    pub(crate) const EMPTY: Index = Index {
        clocks: 0,
        denominator: 0,
        locations: 0,
        start: 0,
        targets: [false; 16],
        actions: [0; 17],
        edges: [0; 33],
    };

    /// The numbers of a location's actions.
    pub fn actions_of(&self, location: usize) -> Range<usize>
        requires { location < 16 }
        ensures { result ≡ actions_range self.now location }
    {
        self.actions[location] as usize..self.actions[location + 1] as usize
    }

    /// The numbers of an action's edges.
    pub fn edges_of(&self, action: usize) -> Range<usize>
        requires { action < 32 }
        ensures { result ≡ edges_range self.now action }
    {
        self.edges[action] as usize..self.edges[action + 1] as usize
    }
}

/// What is kept of a model: the numbers of its parts, the word of each edge, and its zones: the invariant of location l at l, the guard of action a
/// at GUARDS + a, the start bounds at START_BOUNDS.
// kept: the zones are one array, since a bound goes to the zone of the last opener, whatever its kind, by one number, `Seen::slot`.
#[derive(Clone, Copy, Debug, PartialEq, Eq)]
pub struct IndexedModel {
    pub index: Index,
    pub edges: [u32; 128],
    pub zones: [Zone; 49],
}

impl IndexedModel {
    /// Before a model is read into it. The zones are zeros, which fill faster than any other: each opener puts its own.
    pub const EMPTY: IndexedModel = IndexedModel {
        index: Index::EMPTY,
        edges: [0; 128],
        zones: [Zone::ZEROS; 49],
    };
}
