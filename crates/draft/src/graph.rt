// The nodes found, in order of discovery.
ghost use Rattle.std.specs.Prelude.{◌≡◌, ◌<◌, OnOk, IfOk, IfSome};
ghost use Rattle.std.specs.List.{position};
ghost use Rattle.draft.specs.Nodes.{same_front?, Keeps, fronts_of, added_to, placed_in, placing_of};

use crate::nodes::{Front, Node};
use answers::Reason;
use arrayvec::ArrayVec;

/// What is found of the zone graph.
// kept: contracts say that the nodes found before stay (`Keeps`): that is of before and after, so no invariant of the graph has it.
// kept: contracts say of a number that it is below 64 (`small`): it goes into a code at once, so a type of it would be made and taken apart in one call.
// kept: no source in it: with one, each method that takes `&mut self` would have to promise besides that the source stays.
#[derive(Drop)]
pub(crate) struct ZoneGraph {
    pub nodes: ArrayVec<Node, 64>,
}

impl ZoneGraph {
    // The first node with this front: the same location and, since the bounds are tightened ones, the same valuations.
    pub(crate) fn find(&self, front: &Front) -> Option<usize>
        ensures finds { result ≡ position (λ n. same_front? n.front front.now) self.now.nodes.items }
        ensures small { IfSome result (λ n. n < 64) }
    {
        self.nodes.iter().position(|node| node.front == *front)
    }

    // A new node behind the others, unless it is a 65th or has a bound beyond 4,095 either way.
    pub(crate) fn add(&mut self, front: Option<Front>) -> Result<usize, Reason>
        ensures keeps { OnOk result (Keeps self.old.nodes.items self.new.nodes.items) }
        ensures adds { placing_of result self.new.nodes.items ≡ added_to front (fronts_of self.old.nodes.items) }
        ensures small { IfOk result (λ n. n < 64) }
    {
        if self.nodes.is_full() {
            return Err(Reason::TooManyNodes);
        }
        let front = front.ok_or(Reason::BoundTooFar)?;
        let number = self.nodes.len();
        self.nodes.push(Node {
            front,
            rows: ArrayVec::new(),
        });
        Ok(number)
    }

    // The node with this front: a known one, or a new one.
    pub(crate) fn place(&mut self, front: Option<Front>) -> Result<usize, Reason>
        ensures keeps { OnOk result (Keeps self.old.nodes.items self.new.nodes.items) }
        ensures places { placing_of result self.new.nodes.items ≡ placed_in front (fronts_of self.old.nodes.items) }
        ensures small { IfOk result (λ n. n < 64) }
    {
        if let Some(front) = &front {
            if let Some(number) = self.find(front) {
                return Ok(number);
            }
        }
        self.add(front)
    }
}
