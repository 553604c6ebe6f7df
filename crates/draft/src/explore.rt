// Exploring forward: nodes in order of discovery, then by action and edge.
ghost use Rattle.std.specs.Prelude.{◌≡◌, ◌+◌, ◌≤◌, ◌<◌, [], length, get_or, OnOk};
ghost use Rattle.zone.specs.Squares.{Tightens};
ghost use Rattle.model.specs.Fields.{lands_at};
ghost use Rattle.draft.specs.Nodes.{Keeps, fronts_of, placing_of, no_node};
ghost use Rattle.draft.specs.Exploration.{graph, progress_of, coded_of, explored_of, code_of, with_successor, with_row, rows_at, with_node};
ghost use Rattle.draft.specs.Exploration.{nodes_from, explored_from};
ghost use Rattle.draft.specs.Asked.{ActionAsked, Located};

use crate::graph::ZoneGraph;
use crate::source::Source;
use answers::Reason;
use arrayvec::ArrayVec;
use judge::reaching;
use model::fields;
use model::places::GUARDS;
use zone::zones::Zone;

// The code of an A word. That of a B word is the number of its node, with OUTSIDE more where its edge can land outside.
// kept: a code is a number, that of its value in the sum, since an enum would only be turned into that number at each edge of each round.
pub(crate) const BLOCKED: u8 = 255;

pub(crate) const OUTSIDE: usize = 64;

// The code of a B word.
// kept: `number < 64`, as `small` in graph.rt.
pub(crate) fn code_of(number: usize, outside: bool) -> u8
    requires { number < 64 }
    ensures { result ≡ code_of number outside }
{
    if outside {
        return (number + OUTSIDE) as u8;
    }
    number as u8
}

// kept: `Tightens`, as in zone: the sizes of bounds are no invariant of a zone, since each tightening lets them double.
impl ZoneGraph {
    // The code of an edge, from a reach that is not empty. The zone of its successor is the smallest that holds the landings inside.
    pub(crate) fn successor(
        &mut self,
        source: &Source,
        reach: Zone,
        edge: u32,
    ) -> Result<u8, Reason>
        requires { Tightens 1 reach × (lands_at edge < source.now.model.now.index.locations) }
        ensures keeps { OnOk result (Keeps self.old.nodes.items self.new.nodes.items) }
        ensures finds { placing_of result self.new.nodes.items ≡ with_successor source.now.model.now reach edge (fronts_of self.old.nodes.items) }
    {
        let to = fields::lands_at(edge);
        let landings = reach.reset(fields::mask_of(edge));
        let invariant = source.model.zones[to as usize];
        let inside = landings.inside(invariant);
        let landed = if inside {
            landings
        } else {
            reaching::common(landings, invariant)
        };
        let front = source.front(to, landed);
        let number = self.place(front)?;
        Ok(code_of(number, !inside))
    }

    // Adds the row of an action to the rows: one A word where its reach is empty. Waiting attains `waited`.
    pub(crate) fn row(
        &mut self,
        source: &Source,
        waited: Zone,
        a: usize,
        rows: &mut ArrayVec<u8, 128>,
    ) -> Result<(), Reason>
        requires { ActionAsked source.now.model.now a × Tightens 2 waited × (length rows.old.items + 4 ≤ 128) }
        ensures keeps { OnOk result (Keeps self.old.nodes.items self.new.nodes.items) }
        ensures grows { OnOk result (length rows.new.items ≤ length rows.old.items + 4) }
        ensures finds { progress_of result self.new.nodes.items rows.new.items ≡ with_row source.now.model.now waited a (graph (fronts_of self.old.nodes.items) rows.old.items) }
    {
        let reach = reaching::common(waited, source.model.zones[GUARDS + a]);
        if reach.is_empty() {
            rows.push(BLOCKED);
            return Ok(());
        }
        for &edge in source.edges_of(a) {
            let code = self.successor(source, reach, edge)?;
            rows.push(code);
        }
        Ok(())
    }

    // The rows of a location's actions.
    pub(crate) fn rows(
        &mut self,
        source: &Source,
        waited: Zone,
        l: usize,
    ) -> Result<ArrayVec<u8, 128>, Reason>
        requires { Tightens 2 waited × (l < source.now.model.now.index.locations) }
        ensures keeps { OnOk result (Keeps self.old.nodes.items self.new.nodes.items) }
        ensures finds { coded_of result self.new.nodes.items ≡ rows_at source.now.model.now waited l (fronts_of self.old.nodes.items) }
    {
        let mut rows = ArrayVec::new();
        for a in source.model.index.actions_of(l) {
            self.row(source, waited, a, &mut rows)?;
        }
        Ok(rows)
    }

    // The rows of the node n; a target has none.
    pub(crate) fn explore_node(
        &mut self,
        source: &Source,
        n: usize,
    ) -> Result<ArrayVec<u8, 128>, Reason>
        requires { (n < length self.old.nodes.items) × Located source.now.model.now.index.locations self.old.nodes.items }
        ensures keeps { OnOk result (Keeps self.old.nodes.items self.new.nodes.items) }
        ensures finds { coded_of result self.new.nodes.items ≡ with_node source.now.model.now (get_or self.old.nodes.items n no_node).front (fronts_of self.old.nodes.items) }
    {
        let front = &self.nodes[n].front;
        let l = front.location as usize;
        if source.model.index.targets[l] {
            return Ok(ArrayVec::new());
        }
        let waited = reaching::waited(source.zone(front), source.model.zones[l]);
        self.rows(source, waited, l)
    }

    // Explores the nodes, from the start node on, as far as there are nodes; `initial` are the start valuations.
    pub(crate) fn explore(&mut self, source: &Source, initial: Zone) -> Result<(), Reason>
        requires { self.old.nodes.items ≡ [] }
        ensures finds { explored_of result self.new.nodes.items ≡ explored_from source.now.model.now initial }
        ensures located { OnOk result (Located source.now.model.now.index.locations self.new.nodes.items) }
    {
        let front = source.front(source.model.index.start, initial);
        self.place(front)?;
        // kept: exploring a node adds others behind it, so no iterator goes over the nodes
        for n in 0..64 {
            if self.nodes.len() <= n {
                return Ok(());
            }
            self.nodes[n].rows = self.explore_node(source, n)?;
        }
        Ok(())
    }
}
