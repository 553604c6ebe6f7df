// The fields of a model's words, and whether they are in their ranges.
ghost use Rattle.std.specs.Prelude.{◌≡◌, ◌<◌, ◌≤◌, ◌^◌, ◌/◌, eqb};
ghost use Rattle.model.specs.Fields.{clocks_of, denominator_of, head_fields?, target?, location_fields?, action_fields?};
ghost use Rattle.model.specs.Fields.{mask_of, lands_at, weight_of, edge_fields?, one_zero?, start_of, start_fields?};

use zone::{questions, words};

/// The number of clocks that a head word gives.
pub(crate) fn clocks_of(word: u32) -> u32
    ensures { result ≡ clocks_of word }
{
    words::bits::<23, 20>(word)
}

/// The denominator that a head word gives.
pub(crate) fn denominator_of(word: u32) -> u32
    ensures { (result ≡ denominator_of word) × (result < 2 ^ 16) }
{
    words::bits::<15, 0>(word)
}

/// Whether the fields of a head word are in their ranges and its spare bits zero.
pub(crate) fn head_fields(word: u32) -> bool
    ensures { result ≡ head_fields? word }
{
    (words::bits::<27, 24>(word) == 1)
        & questions::good_clocks(clocks_of(word))
        & (words::bits::<19, 16>(word) == 0)
        & (1 <= denominator_of(word))
}

/// Whether a location word marks a target.
pub(crate) fn is_target(word: u32) -> bool
    ensures { result ≡ target? word }
{
    words::bits::<0, 0>(word) == 1
}

/// Whether the spare bits of a location word are zero.
pub(crate) fn location_fields(word: u32) -> bool
    ensures { result ≡ location_fields? word }
{
    words::bits::<27, 1>(word) == 0
}

/// Whether the spare bits of an action word are zero.
pub(crate) fn action_fields(word: u32) -> bool
    ensures { result ≡ action_fields? word }
{
    words::bits::<27, 0>(word) == 0
}

/// The clocks that an edge word resets; the lowest bit is clock 1.
pub fn mask_of(word: u32) -> u32
    ensures { result ≡ mask_of word }
{
    words::bits::<23, 20>(word)
}

/// The number of the location that an edge word leads to.
pub fn lands_at(word: u32) -> u32
    ensures { (result ≡ lands_at word) × (result < 16) }
{
    words::bits::<19, 16>(word)
}

/// The weight of an edge word.
pub fn weight_of(word: u32) -> u32
    ensures { (result ≡ weight_of word) × (result < 2 ^ 16) }
{
    words::bits::<15, 0>(word)
}

/// Whether the fields of an edge word are in their ranges and its spare bits zero, which the bits of clocks that there are not count among.
// kept: `clocks` is a number at most 4 and no type of its own, since it is the head word's, and 0 before that is read.
pub(crate) fn edge_fields(clocks: u32, denominator: u32, word: u32) -> bool
    requires { clocks ≤ 4 }
    ensures { result ≡ edge_fields? clocks denominator word }
{
    let weight = weight_of(word);
    (words::bits::<27, 24>(word) == 0)
        & (mask_of(word) >> clocks == 0)
        & (1 <= weight)
        & (weight <= denominator)
}

/// Whether exactly one of the two clocks of a bound word is clock 0.
pub(crate) fn one_zero(word: u32) -> bool
    ensures { result ≡ one_zero? word }
{
    let i = words::first_clock(word);
    let j = words::second_clock(word);
    (i == 0) != (j == 0)
}

/// The number of the location that a start word gives.
pub(crate) fn start_of(word: u32) -> u32
    ensures { result ≡ start_of word }
{
    words::bits::<3, 0>(word)
}

/// Whether the spare bits of a start word are zero and its location is one of so many.
pub(crate) fn start_fields(locations: usize, word: u32) -> bool
    ensures { result ≡ start_fields? locations word }
{
    (words::bits::<27, 4>(word) == 0) & ((start_of(word) as usize) < locations)
}
