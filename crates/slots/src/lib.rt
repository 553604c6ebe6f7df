// The slots of the board, document 02, card 3: a slice of structs that the caller lends. It is read in `load` and written in `put`, and nowhere else;
// what is decided in between is decided by value.
#![tactic(auto)]

ghost use Rattle.std.specs.Prelude.{◌≡◌, set};
ghost use Rattle.slots.specs.Loading.{Loads};

/// A slot: vacant, or held by a team with a certified fraction b / V.
// kept: callers in C lend slots of this struct, and C has no enum with values
#[repr(C)]
#[derive(Clone, Copy, Debug, PartialEq, Eq)]
pub struct Slot {
    pub held: bool,
    pub team: u32,
    pub b: u32,
    pub whole: u32, // V
}

impl Slot {
    pub const VACANT: Slot = Slot {
        held: false,
        team: 0,
        b: 0,
        whole: 0,
    };
}

/// The slots that a caller lends, by value, or how many there are where they are not 16.
// kept: the number in the Err, which no code reads, since this promise has always said how many there are
pub fn load(slots: &[Slot]) -> Result<[Slot; 16], usize>
    ensures { Loads slots.now result }
{
    <[Slot; 16]>::try_from(slots).map_err(|_| slots.len())
}

/// Writes one slot, at a place that is there; elsewhere nothing is written.
pub fn put(slots: &mut [Slot], at: usize, slot: Slot)
    ensures { slots.new ≡ set slots.old at slot }
{
    // kept: with no `get_mut`, since nothing is known of what a write through it leaves
    if at < slots.len() {
        slots[at] = slot;
    }
}
