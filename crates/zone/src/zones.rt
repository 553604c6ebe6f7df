// Zones as square tables of bounds, by value: one bound more, meet, tighten, delay, reset, and whether one is empty or lies inside another.
ghost use Rattle.std.specs.Prelude.{◌≡◌, ◌<◌, ◌^◌};
ghost use Rattle.zone.specs.Moves.{masked?};
ghost use Rattle.zone.specs.Squares.{universe, with_bound, met, passed, tightened, delayed_square, source, reset_square};
ghost use Rattle.zone.specs.Squares.{list_of, empty?, inside?, Small, Tightens};

use crate::bounds::Bound;

/// A zone as a square table of bounds, five clocks by five (a difference bound matrix): cell i * 5 + j bounds clock i minus clock j.
/// Clocks that a model does not have get no bounds of their own. `universe` has that no clock is below 0, and so has every zone that the
/// methods make from it.
// kept: the sizes of bounds are no invariant, since each tightening lets them double: `Tightens` says how often a zone can still be tightened,
// which as a const parameter would have to be computed, and Rattle takes only a parameter's name alone (tried)
#[derive(Clone, Copy, Debug, PartialEq, Eq)]
pub struct Zone {
    pub cells: [Bound; 25],
}

// Whether a mask names a clock; its lowest bit is clock 1, and clock 0 has none.
pub(crate) fn masked(mask: u32, clock: usize) -> bool
    requires { clock < 5 }
    ensures { result ≡ masked? mask clock }
{
    (mask << 1 >> clock) % 2 == 1
}

// The clock whose bounds a clock has after a reset.
#[tactic(auto, unfolding(crate::specs::Squares::source))]
pub(crate) fn source_of(mask: u32, clock: usize) -> usize
    requires { clock < 5 }
    ensures { (result ≡ source mask clock) × (result < 5) }
{
    if masked(mask, clock) { 0 } else { clock }
}

// The sources of the five clocks.
pub(crate) fn sources(mask: u32) -> [usize; 5]
    ensures { result ≡ list_of (source mask) 5 0 }
{
    let mut from = [0; 5];
    for (clock, source) in from.iter_mut().enumerate() {
        *source = source_of(mask, clock);
    }
    from
}

impl Zone {
    /// Every key 0: what stands at a place where no zone was put. Each bound is "below 0", so no valuation is in it; zeros fill an array faster
    /// than any other.
    pub const ZEROS: Zone = Zone {
        cells: [Bound { key: 0 }; 25],
    };

    /// Every valuation.
    #[tactic(auto, unfolding(crate::specs::Squares::list_of))]
    pub fn universe() -> Zone
        ensures { result ≡ universe }
    {
        let z = Bound::AT_MOST_ZERO;
        let u = Bound::UNBOUNDED;
        Zone {
            cells: [
                z, // clock 0 minus clock 0, then minus 1 to 4
                z, z, z, z, u, // clock 1
                z, u, u, u, u, // clock 2
                u, z, u, u, u, // clock 3
                u, u, z, u, u, // clock 4
                u, u, u, z,
            ],
        }
    }

    /// The valuations of both.
    pub fn meet(mut self, other: Zone) -> Zone
        ensures { result ≡ met self other }
    {
        for (p, bound) in self.cells.iter_mut().enumerate() {
            *bound = bound.tighter_of(other.cells[p]);
        }
        self
    }

    // The valuations where a bound of clock i minus clock j holds as well.
    // kept: by value, as document 01 has zones handed over and back; `add_bound` does the same in place, for zones that a file's words fill
    // kept: i < 5 and j < 5 here, in `passed` and in `raise`, since rows and columns are the counters of ranges, or fields of words just checked
    #[tactic(auto, unfolding(crate::specs::Squares::with_bound))]
    pub(crate) fn with_bound(mut self, i: usize, j: usize, bound: Bound) -> Zone
        requires { (i < 5) × (j < 5) }
        ensures { result ≡ with_bound i j bound self }
    {
        let p = i * 5 + j;
        self.cells[p] = self.cells[p].tighter_of(bound);
        self
    }

    // A pass through clock m: every bound at least as tight as the sum of the two through it. All are those of the old table: in place, it would
    // equal the algorithm only while no diagonal is negative.
    pub(crate) fn passed(self, m: usize) -> Zone
        requires { (m < 5) × Small (2 ^ 27) self }
        ensures { result ≡ passed m self }
    {
        let mut out = self;
        // kept: ranges, by row and column; by `enumerate`, over all cells, judging tables of cuts took 3 to 4 times as many instructions (bar: 2 %)
        for i in 0..5 {
            let into = self.cells[i * 5 + m];
            for j in 0..5 {
                let direct = self.cells[i * 5 + j];
                let through = into.sum(self.cells[m * 5 + j]);
                out.cells[i * 5 + j] = direct.tighter_of(through);
            }
        }
        out
    }

    /// The same valuations, every bound as tight as any chain of bounds makes it: by the algorithm of Floyd and Warshall, a pass for each
    /// clock.
    pub fn tighten(mut self) -> Zone
        requires { Tightens 1 self }
        ensures { result ≡ tightened self }
    {
        // kept: a range, since m is the number of the clock
        for m in 0..5 {
            self = self.passed(m);
        }
        self
    }

    /// Of a tightened zone, what any delay attains: the upper bounds are dropped.
    pub fn delay(mut self) -> Zone
        ensures { result ≡ delayed_square self }
    {
        // kept: a range, since nothing is known of an array behind an adapter of `iter_mut`, such as `step_by` (tried)
        for p in (5..25).step_by(5) {
            self.cells[p] = Bound::UNBOUNDED;
        }
        self
    }

    /// Of a tightened zone, the masked clocks set to 0: each has the bounds of clock 0.
    pub fn reset(self, mask: u32) -> Zone
        ensures { result ≡ reset_square mask self }
    {
        let from = sources(mask);
        let mut out = self;
        // kept: ranges, as in `passed`; by `enumerate` judging full tables took 67 % more instructions (bar: 2 %)
        for i in 0..5 {
            let row = from[i] * 5;
            for j in 0..5 {
                out.cells[i * 5 + j] = self.cells[row + from[j]];
            }
        }
        out
    }

    /// Of a tightened zone: it has no valuation at any scale.
    pub fn is_empty(self) -> bool
        ensures { result ≡ empty? self }
    {
        // kept: no `any`, which ends early: as in `inside`, the loop has no branch but its own end
        (0..5).fold(false, |empty, i| empty | self.cells[i * 6].negative())
    }

    /// Of a tightened zone that is not empty: it lies inside the other. Of any other zone a yes is right, and a no tells nothing.
    pub fn inside(self, other: Zone) -> bool
        ensures { result ≡ inside? self other }
    {
        let mut passes = true;
        // kept: no `all`, which stops at the first pair that fails: judging full tables then took 18 to 30 % more instructions (bar: 2 %)
        for (inner, outer) in self.cells.iter().zip(&other.cells) {
            passes &= !outer.tighter(*inner);
        }
        passes
    }
}
