// The values of nodes, by the numbers that codes have.
ghost use Rattle.draft.specs.Asked.{ValuesFit};

// V.
pub(crate) const WHOLE: u32 = 1_000_000;

/// A value for each code: those of the nodes, and from number 64 on V, for the edges that can land outside.
#[derive(Clone, Copy)]
pub(crate) struct Values {
    pub list: [u32; 256],
    ghost fits: { ValuesFit list },
}

impl Values {
    ghost use Rattle.std.specs.Prelude.{◌≡◌};
    ghost use Rattle.draft.specs.Values.{value_of};

    // What a code has in the sum of its row.
    pub(crate) fn of(&self, code: u8) -> u32
        ensures { result ≡ value_of self.now.list code }
    {
        self.list[code as usize]
    }
}
