// The kinds of a table's words.
ghost use Rattle.std.specs.Prelude.{◌≡◌};
ghost use Rattle.model.specs.TableKinds.{table_number, is_table, table_kind_of};

use zone::words;

/// The kind of a table's word, with its number in document 01. `None` stands before the first word, and for a kind that is not a table's; its number
/// is that of no word, since the constant table holds the kinds of both files.
// kept: `None` is no mere absence, but the row of the constant table before the first word; an `Option` would be turned into that row at each look-up.
#[derive(Clone, Copy, Debug, PartialEq, Eq)]
pub enum TableKind {
    None = 16,
    Bound = 5,
    Head = 7,
    Node = 8,
    Value = 9,
    Blocked = 10,
    Successor = 11,
    StartNode = 12,
    Cut = 13,
}

impl TableKind {
    /// The kind of a word.
    #[tactic(auto, using(crate::proofs::TableKindLaws::no_kind_lem), unfolding(crate::specs::TableKinds::table_kind_of, crate::specs::Kinds::among))]
    pub fn of(word: u32) -> TableKind
        ensures { result ≡ table_kind_of word }
    {
        match words::kind_of(word) {
            5 => TableKind::Bound,
            7 => TableKind::Head,
            8 => TableKind::Node,
            9 => TableKind::Value,
            10 => TableKind::Blocked,
            11 => TableKind::Successor,
            12 => TableKind::StartNode,
            13 => TableKind::Cut,
            _ => TableKind::None,
        }
    }

    /// The number of a kind, by which the table of what may follow what is indexed.
    pub fn number(self) -> usize
        ensures { result ≡ table_number self }
    {
        self as usize
    }

    /// Whether a word has the number of a kind. For `None` that is not whether the word is of no kind, which `of` says.
    // kept: beside `Kind::is`, which says why.
    pub fn is(self, word: u32) -> bool
        ensures { result ≡ is_table self word }
    {
        words::kind_of(word) as usize == self.number()
    }
}
