// The fields of a bound word, and where its bound stands in a zone.
ghost use Rattle.std.specs.Prelude.{◌≡◌, ◌+◌, ◌-◌, ◌*◌, ◌≤◌, ◌<◌};
ghost use Rattle.zone.specs.Words.{bits, kind, bound_of, bound_fields?, good_bound?};
ghost use Rattle.zone.specs.Reading.{cell_of};

use crate::bounds::Bound;

/// Bits `HIGH` down to `LOW` of a word, as the documents count them.
pub fn bits<const HIGH: u32, const LOW: u32>(word: u32) -> u32
    requires { (LOW ≤ HIGH) × (HIGH < 32) × (HIGH < LOW + 31) }
    ensures { result ≡ bits HIGH LOW word }
{
    (word >> LOW) % (1 << (HIGH + 1 - LOW))
}

/// The kind of a bound word, in a model's file and in a table's.
pub const BOUND: u32 = 5;

/// The kind of a word, its top four bits.
// kept: a number, since each of the two files has other kinds beside a bound's, with types of their own above
pub fn kind_of(word: u32) -> u32
    ensures { result ≡ kind word }
{
    bits::<31, 28>(word)
}

/// The clock i of a bound word.
#[tactic(auto, unfolding(crate::specs::Words::bound_of))]
pub fn first_clock(word: u32) -> u32
    ensures { result ≡ (bound_of word).i }
{
    bits::<27, 24>(word)
}

/// The clock j of a bound word.
#[tactic(auto, unfolding(crate::specs::Words::bound_of))]
pub fn second_clock(word: u32) -> u32
    ensures { result ≡ (bound_of word).j }
{
    bits::<23, 20>(word)
}

/// Where the bound of a bound word stands in a zone's table.
pub fn cell_of(word: u32) -> usize
    ensures { result ≡ (bound_of word).i * 5 + (bound_of word).j }
{
    first_clock(word) as usize * 5 + second_clock(word) as usize
}

/// The bound of a bound word.
pub fn bound_of(word: u32) -> Bound
    ensures { result ≡ cell_of (bound_of word) }
{
    let d = bits::<12, 0>(word) as i32 - 0x1000;
    let strict = bits::<19, 19>(word) == 1;
    Bound {
        key: d + d + (!strict) as i32,
    }
}

/// Whether the fields of a bound word, over clocks 1 to `clocks`, are in their ranges and its spare bits zero.
pub fn bound_fields(clocks: u32, word: u32) -> bool
    ensures { result ≡ bound_fields? clocks word }
{
    let i = first_clock(word);
    let j = second_clock(word);
    (i <= clocks)
        & (j <= clocks)
        & (i != j)
        & (bits::<12, 0>(word) != 0)
        & (bits::<18, 13>(word) == 0)
}

/// Whether a word is a good bound over clocks 1 to `clocks`.
pub fn good_bound(clocks: u32, word: u32) -> bool
    ensures { result ≡ good_bound? clocks word }
{
    (kind_of(word) == BOUND) & bound_fields(clocks, word)
}
