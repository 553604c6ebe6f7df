// The fields of a table's words, and whether they are in their ranges.
ghost use Rattle.std.specs.Prelude.{◌≡◌, ◌<◌, ◌^◌};
ghost use Rattle.table.specs.Fields.{table_head_fields?, location_of, node_fields?, value_of, value_fields?, blocked_fields?};
ghost use Rattle.table.specs.Fields.{number_of, number_fields?, cut_fields?};

use zone::words;

/// The number that a head word gives for V, and a value word for a node's value.
pub(crate) fn value_of(word: u32) -> u32
    ensures { (result ≡ value_of word) × (result < 2 ^ 28) }
{
    words::bits::<27, 0>(word)
}

/// Whether V is in its range.
pub(crate) fn head_fields(word: u32) -> bool
    ensures { result ≡ table_head_fields? word }
{
    1 <= value_of(word)
}

/// The number of the location of a node word.
pub fn location_of(word: u32) -> u32
    ensures { (result ≡ location_of word) × (result < 16) }
{
    words::bits::<27, 24>(word)
}

/// Whether the spare bits of a node word are zero and its location is one of so many.
pub(crate) fn node_fields(locations: usize, word: u32) -> bool
    ensures { result ≡ node_fields? locations word }
{
    (words::bits::<23, 0>(word) == 0) & ((location_of(word) as usize) < locations)
}

/// Whether a value is at most V.
pub(crate) fn value_fields(whole: u32, word: u32) -> bool
    ensures { result ≡ value_fields? whole word }
{
    value_of(word) <= whole
}

/// Whether the spare bits of a word of kind A are zero.
pub(crate) fn blocked_fields(word: u32) -> bool
    ensures { result ≡ blocked_fields? word }
{
    value_of(word) == 0
}

/// The node number of a word of kind B or C.
pub fn number_of(word: u32) -> u32
    ensures { (result ≡ number_of word) × (result < 64) }
{
    words::bits::<5, 0>(word)
}

/// Whether the spare bits of a word of kind B or C are zero.
pub(crate) fn number_fields(word: u32) -> bool
    ensures { result ≡ number_fields? word }
{
    words::bits::<27, 6>(word) == 0
}

/// Whether a word of kind D has the fields of a bound over clocks 1 to `clocks`, with j 0.
#[tactic(auto, unfolding(zone::specs::Words::bound_of))]
pub(crate) fn cut_fields(clocks: u32, word: u32) -> bool
    ensures { result ≡ cut_fields? clocks word }
{
    words::bound_fields(clocks, word) & (words::second_clock(word) == 0)
}
