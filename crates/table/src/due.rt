// How many rows the node of a location has, and how many words a row: what a model's index says of them.
ghost use Rattle.std.specs.Prelude.{◌≡◌, ◌<◌, ◌≤◌};
ghost use Rattle.table.specs.Scan.{rows_at, size_at, IndexFits};

use model::index::Index;

/// A model's index, as reading a table asks it: every location's actions are places in it, and every action has an edge.
#[derive(Clone, Copy)]
pub(crate) struct Rows<'a> {
    pub index: &'a Index,
    ghost fits: { IndexFits index.now },
}

impl Rows<'_> {
    /// How many rows a node of a location has: one per action, none at a target.
    #[tactic(auto, unfolding(crate::specs::Scan::rows_at, crate::specs::Scan::first_row, crate::specs::Scan::end_row))]
    pub(crate) fn of(self, location: usize) -> usize
        requires { location < 16 }
        ensures { result ≡ rows_at self.entry.index.now location }
    {
        if self.index.targets[location] {
            return 0;
        }
        self.index.actions_of(location).len()
    }

    /// How many successors the row of an action has, one per edge; 0 where no row is due.
    #[tactic(auto, unfolding(crate::specs::Scan::size_at, crate::specs::Scan::edges_at))]
    pub(crate) fn size(self, action: usize, rows: usize) -> usize
        requires { 1 ≤ rows → action < 32 }
        ensures { result ≡ size_at self.entry.index.now action rows }
    {
        if rows == 0 {
            return 0;
        }
        self.index.edges_of(action).len()
    }
}
