// The zones of a row's reach, and which nodes have zones within their invariants by the bounds as they stand.
ghost use Rattle.std.specs.Prelude.{◌≡◌};
ghost use Rattle.zone.specs.Squares.{Tightens};
ghost use Rattle.judge.specs.Reaching.{common, waited_square, Contained, NodesAsked};

use table::nodes::Node;
use zone::zones::Zone;

/// What two zones have in common, tightened. With what waiting attains and the guard of an action it is the action's reach, before resets.
#[tactic(auto, using(crate::proofs::ReachSizes::met_small), unfolding(crate::specs::Reaching::common))]
pub fn common(zone: Zone, other: Zone) -> Zone
    requires { Tightens 1 zone × Tightens 1 other }
    ensures { result ≡ common zone other }
{
    zone.meet(other).tighten()
}

/// What waiting attains from the states in a zone, within the invariant. Invariants may be lower bounds, and a zone need not lie in its
/// invariant, so the invariant is met before the delay and after it.
#[tactic(auto, unfolding(crate::specs::Reaching::waited_square))]
pub fn waited(zone: Zone, invariant: Zone) -> Zone
    requires { Tightens 1 zone × Tightens 1 invariant }
    ensures { result ≡ waited_square zone invariant }
{
    common(zone, invariant).delay().meet(invariant)
}

/// Of each of these nodes, whether its bounds, as its words give them, are within those of its location's invariant, pair by pair. What lands in such a
/// zone cannot land outside. The zone is not tightened for this: one that lies within by a chain of bounds alone is answered no, and the edges that
/// lead to it are asked one by one (`Judging::successor`).
#[tactic(auto, using(crate::proofs::ContainedLaws::no_flags, crate::proofs::ContainedLaws::flag_set, crate::proofs::ContainedLaws::flags_end))]
pub(crate) fn contained(nodes: &[Node], invariants: &[Zone; 49]) -> [bool; 64]
    requires { NodesAsked nodes.now }
    ensures { Contained invariants.now nodes.now result }
{
    // kept: an array beside the nodes, which are the table's; with no flags full tables took 12 % more instructions (tried)
    let mut flags = [false; 64];
    for (n, node) in nodes.iter().enumerate() {
        flags[n] = node.zone.inside(invariants[node.location]);
    }
    flags
}
