// The earliest point of a zone (document 02, card 6): of all its valuations at scale C + 1, the one in which every clock is smallest.
ghost use Rattle.std.specs.Prelude.{◌≡◌, ◌≤◌, ◌<◌, ◌-◌, ◌^◌, max, suc};
ghost use Rattle.zone.specs.Cells.{size};
ghost use Rattle.zone.specs.Squares.{Tightens};
ghost use Rattle.zone.specs.Points.{least_second, raised_by, round_of, rounds_of, earliest_of, Below};

use crate::bounds::Bound;
use crate::clocks::Clocks;
use crate::zones::Zone;

/// What clocks 1 to 4 read.
// kept: a field for each, since in an array of four, clock 1 would stand at 0
#[derive(Clone, Copy, Debug, PartialEq, Eq)]
pub struct Point {
    pub c1: u32,
    pub c2: u32,
    pub c3: u32,
    pub c4: u32,
}

// What the five clocks read, clock 0 first.
// kept: a struct, since the prover covers no array that a call lays into a local again (tried)
#[derive(Clone, Copy)]
pub(crate) struct Readings {
    pub clocks: [u32; 5],
}

impl Readings {
    pub(crate) const ZERO: Readings = Readings { clocks: [0; 5] };
}

// The larger of `second` and the least that the second clock of a bound may read, at a scale, where the first one reads `first`. The sum of the key and
// 2^24 is 2 * (d + 2^23), and one more unless the bound is strict, so that no number here is negative. The key of an absent bound is so large that it
// asks for nothing.
// kept: the scale as a number, here, in `raise` and in `round`, since what is asked and allowed are multiples of it, and `round` counts with it
pub(crate) fn raised(bound: Bound, scale: u32, first: u32, second: u32) -> u32
    requires { (size bound < 2 ^ 23) × (1 ≤ scale) × (scale ≤ 5) × (first < 2 ^ 27) × (second < 2 ^ 28) }
    ensures { result ≡ max second (least_second scale bound first) }
{
    let field = (bound.key + 0x100_0000) as u32;
    let asked = first + scale * 0x80_0000 + (1 - field % 2);
    let allowed = scale * (field / 2);
    second.max(asked.saturating_sub(allowed))
}

// Each clock raised as far as its bound with clock i asks, at a scale, where clock i reads `first`.
pub(crate) fn raise(zone: Zone, i: usize, scale: u32, first: u32, mut reads: Readings) -> Readings
    requires { Tightens 1 zone × (i < 5) × (1 ≤ scale) × (scale ≤ 5) × (first < 2 ^ 27) × Below (2 ^ 28) reads.clocks }
    ensures { result.clocks ≡ raised_by scale zone i first reads.clocks }
{
    for (j, read) in reads.clocks.iter_mut().enumerate() {
        *read = raised(zone.cells[i * 5 + j], scale, first, *read);
    }
    reads
}

// One round over n clocks, clock 0 among them, at scale n: what their bounds ask where they read so.
pub(crate) fn round(zone: Zone, n: usize, reads: Readings) -> Readings
    requires { Tightens 1 zone × (1 ≤ n) × (n ≤ 5) × Below (2 ^ 27) reads.clocks }
    ensures { result.clocks ≡ round_of n zone reads.clocks }
{
    let mut least = Readings::ZERO;
    for (i, &first) in reads.clocks[..n].iter().enumerate() {
        least = raise(zone, i, n as u32, first, least);
    }
    least
}

// From the lower bounds, one round less than there are clocks.
pub(crate) fn rounds(zone: Zone, clocks: Clocks) -> Readings
    requires { Tightens 1 zone }
    ensures { result.clocks ≡ rounds_of (suc clocks.count) zone (clocks.count - 1) }
{
    let n = clocks.count as usize + 1;
    let mut reads = raise(zone, 0, n as u32, 0, Readings::ZERO);
    for _ in 1..clocks.count {
        reads = round(zone, n, reads);
    }
    reads
}

impl Zone {
    /// Of a tightened zone over so many clocks, the earliest point at the scale one above; an empty one has none.
    #[tactic(auto, unfolding(crate::specs::Points::earliest_of))]
    pub fn earliest(self, clocks: Clocks) -> Option<Point>
        requires { Tightens 1 self }
        ensures { result ≡ earliest_of clocks.count self }
    {
        if self.is_empty() {
            return None;
        }
        let [_, c1, c2, c3, c4] = rounds(self, clocks).clocks;
        Some(Point { c1, c2, c3, c4 })
    }
}
