// What the words of a table read so far come to, and the checks of the next word.
ghost use Rattle.std.specs.Prelude.{◌≡◌, ◌+◌, ◌<◌, ◌≤◌};
ghost use Rattle.table.specs.Scan.{rows_allow_at?, fields_at?, limit_at?};
ghost use Rattle.table.specs.Scan.{with_head, with_node, with_value, with_row, with_number, with_successor, with_cut, with_start};

use crate::due::Rows;
use crate::fields;
use model::index::Index;
use model::table_kinds::TableKind;
use zone::words;

/// What the words read so far come to, for the checks of the next word and for the nodes.
// kept: no Option of the row that is due: `rows` is counted down to 0, and one comparison asks it, where an Option would be taken apart and built
// again at each word of a row
// kept: `whole` and `nodes` stand in the table too, since a word is checked by what was seen alone
#[derive(Clone, Copy)]
pub(crate) struct Seen {
    pub opener: TableKind, // the kind of the last word that is no bound
    pub whole: u32, // V, of the head
    pub nodes: usize, // how many there are
    pub location: usize, // of the last node
    pub target: bool, // behind its value: whether that location is a target
    pub action: usize, // the first action of the last node whose row is not complete; 0 behind a cut
    pub rows: usize, // how many rows of the last node are not complete; the two successors of a cut count as one
    pub size: usize, // how many successors the first of them has, unless it is blocked; 0 where none is due
    pub begun: usize, // how many of those stand
    pub furthest: u32, // the largest number that a successor or the start node has
}

impl Seen {
    pub(crate) const NOTHING: Seen = Seen {
        opener: TableKind::None,
        whole: 0,
        nodes: 0,
        location: 0,
        target: false,
        action: 0,
        rows: 0,
        size: 0,
        begun: 0,
        furthest: 0,
    };

    /// Whether the rows that are still due or, for a cut, the location let a word of that kind stand here.
    pub(crate) fn rows_allow(&self, word: u32) -> bool
        ensures { result ≡ rows_allow_at? self.now word }
    {
        match TableKind::of(word) {
            TableKind::Node => self.rows == 0,
            TableKind::Blocked => (0 < self.rows) & (self.begun == 0),
            TableKind::Successor => 0 < self.rows,
            TableKind::StartNode => self.rows == 0,
            TableKind::Cut => !self.target,
            _ => true,
        }
    }

    /// Whether the fields of a word are in their ranges and its spare bits zero.
    pub(crate) fn fields(&self, index: &Index, word: u32) -> bool
        ensures { result ≡ fields_at? index.now self.now word }
    {
        match TableKind::of(word) {
            TableKind::Bound => words::bound_fields(index.clocks, word),
            TableKind::Head => fields::head_fields(word),
            TableKind::Node => fields::node_fields(index.locations, word),
            TableKind::Value => fields::value_fields(self.whole, word),
            TableKind::Blocked => fields::blocked_fields(word),
            TableKind::Successor => fields::number_fields(word),
            TableKind::StartNode => fields::number_fields(word),
            TableKind::Cut => fields::cut_fields(index.clocks, word),
            TableKind::None => false,
        }
    }

    /// Whether one more of the word's kind is within its limit.
    pub(crate) fn limit(&self, word: u32) -> bool
        ensures { result ≡ limit_at? self.now word }
    {
        match TableKind::of(word) {
            TableKind::Node => self.nodes < 64,
            _ => true,
        }
    }

    /// Adds a head word.
    pub(crate) fn add_head(&mut self, word: u32)
        ensures { self.new ≡ with_head self.old word }
    {
        self.opener = TableKind::Head;
        self.whole = fields::value_of(word);
    }

    /// Adds a node word.
    pub(crate) fn add_node(&mut self, word: u32)
        requires { self.old.nodes ≤ 64 }
        ensures { self.new ≡ with_node self.old word }
    {
        self.opener = TableKind::Node;
        self.nodes += 1;
        self.location = fields::location_of(word) as usize;
    }

    /// Adds a value word, behind which the rows of the node's location are due.
    pub(crate) fn add_value(&mut self, rows: Rows)
        requires { self.old.location < rows.index.now.locations }
        ensures { self.new ≡ with_value rows.entry.index.now self.old }
    {
        let location = self.location;
        self.opener = TableKind::Value;
        self.target = rows.index.targets[location];
        self.action = rows.index.actions_of(location).start;
        self.rows = rows.of(location);
        self.size = rows.size(self.action, self.rows);
        self.begun = 0;
    }

    /// Adds the last word of a row, of that kind: the next action's row is due, if any.
    pub(crate) fn add_row(&mut self, rows: Rows, kind: TableKind)
        requires { (1 ≤ self.old.rows) × (self.old.action + self.old.rows ≤ 32) }
        ensures { self.new ≡ with_row rows.entry.index.now self.old kind }
    {
        self.opener = kind;
        self.action += 1;
        self.rows -= 1;
        self.size = rows.size(self.action, self.rows);
        self.begun = 0;
    }

    /// Adds the number of a node that a word gives.
    pub(crate) fn add_number(&mut self, word: u32)
        ensures { self.new ≡ with_number self.old word }
    {
        self.furthest = self.furthest.max(fields::number_of(word));
    }

    /// Adds a successor.
    pub(crate) fn add_successor(&mut self, rows: Rows, word: u32)
        requires { (1 ≤ self.old.rows) × (self.old.action + self.old.rows ≤ 32) × (self.old.begun < self.old.size) × (self.old.size ≤ 128) }
        ensures { self.new ≡ with_successor rows.entry.index.now (with_number self.old word) }
    {
        self.add_number(word);
        if self.begun + 1 == self.size {
            self.add_row(rows, TableKind::Successor);
        } else {
            self.opener = TableKind::Successor;
            self.begun += 1;
        }
    }

    /// Adds a cut, behind which two successors are due in place of all rows.
    pub(crate) fn add_cut(&mut self)
        ensures { self.new ≡ with_cut self.old }
    {
        self.opener = TableKind::Cut;
        self.action = 0;
        self.rows = 1;
        self.size = 2;
        self.begun = 0;
    }

    /// Adds the start node's word.
    pub(crate) fn add_start(&mut self, word: u32)
        ensures { self.new ≡ with_start self.old word }
    {
        self.add_number(word);
        self.opener = TableKind::StartNode;
    }
}
