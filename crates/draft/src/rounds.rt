// The values of a draft, round by round, from the codes of its rows.
ghost use Rattle.std.specs.Prelude.{◌≡◌, ◌*◌, ◌≤◌, ◌<◌, length};
ghost use Rattle.drafting.specs.Rounds.{rounded_up};
ghost use Rattle.drafting.specs.Words.{whole};
ghost use Rattle.draft.specs.Asked.{weights_of};
ghost use Rattle.draft.specs.Values.{sum_of, largest_at, round_of, values_of, Rounded};

use crate::explore::BLOCKED;
use crate::explored::Explored;
use crate::source::Source;
use crate::values::{Values, WHOLE};
use judge::landing;

// A sum over D, rounded up.
#[tactic(auto, using(crate::proofs::RoundCode::ceil_whole))]
pub(crate) fn rounded_up(sum: u64, denominator: u32) -> u32
    requires { (1 ≤ denominator) × (sum ≤ denominator * whole) }
    ensures { (result ≡ rounded_up sum denominator) × (result ≤ whole) }
{
    sum.div_ceil(u64::from(denominator)) as u32
}

// The judge's sum of a row, of its edges with their codes.
pub(crate) fn row_sum(edges: &[u32], codes: &[u8], values: &Values) -> u64
    requires { length edges.now ≤ 4 }
    ensures { (result ≡ sum_of values.now.list edges.now codes.now) × (result ≤ weights_of edges.now * whole) }
{
    let mut sum: u64 = 0;
    for (&edge, &code) in edges.iter().zip(codes) {
        sum += landing::share(edge, values.of(code));
    }
    sum
}

// The largest, over the rows of a location, of the judge's sum over D, rounded up; 0 without rows that have successors. The codes of a node found are
// enough for all rows; that they are is not asked here, so the rows end where they are too few.
pub(crate) fn largest(source: &Source, l: usize, codes: &[u8], values: &Values) -> u32
    requires { l < source.now.model.now.index.locations }
    ensures { (result ≡ largest_at values.now.list source.now.model.now l codes.now) × (result ≤ whole) }
{
    let mut best: u32 = 0;
    let mut rest = codes;
    for a in source.model.index.actions_of(l) {
        if let [BLOCKED, behind @ ..] = rest {
            rest = behind;
        } else {
            let edges = source.edges_of(a);
            let Some((row, behind)) = rest.split_at_checked(edges.len()) else {
                return best;
            };
            let sum = row_sum(edges, row, values);
            best = best.max(rounded_up(sum, source.model.index.denominator));
            rest = behind;
        }
    }
    best
}

impl Explored<'_> {
    // A round: the values of all nodes but targets are replaced together. There are none where it changes no value.
    pub(crate) fn round(&self, values: &Values) -> Option<Values>
        ensures { Rounded result values.now.list (round_of self.now.source.model.now self.now.nodes.now values.now.list) }
    {
        let mut list = values.list;
        // kept: a flag, set on the way: comparing both lists behind the loop would go over 256 values once more in each round
        let mut changed = false;
        // kept: of values that an adapter of `iter_mut` has gone over, a proof knows nothing, so they are put by number
        for (n, node) in self.nodes.iter().enumerate() {
            let l = node.front.location as usize;
            if !self.source.model.index.targets[l] {
                let v = largest(&self.source, l, &node.rows, values);
                if v != values.list[n] {
                    list[n] = v;
                    changed = true;
                }
            }
        }
        if changed { Some(Values { list }) } else { None }
    }

    // The values after so many rounds; every one begins at V. Behind a round that changes none, no later one does.
    pub(crate) fn values_after(&self, rounds: u64) -> Values
        ensures { result.list ≡ values_of self.now.source.model.now self.now.nodes.now rounds }
    {
        let mut values = Values { list: [WHOLE; 256] };
        for _n in 0..rounds {
            let Some(next) = self.round(&values) else {
                return values;
            };
            values = next;
        }
        values
    }
}
