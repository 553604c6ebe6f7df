// How many clocks there are.
ghost use Rattle.std.specs.Prelude.{◌≡◌, ◌≤◌, false, true, MatchOption};
ghost use Rattle.zone.specs.Questions.{clocks?};

use crate::questions::good_clocks;

/// C, the number of clocks beside clock 0, as the calls and the words give it where it is not too large.
#[derive(Clone, Copy, Debug, PartialEq, Eq)]
pub struct Clocks {
    pub count: u32,
    pub ghost few: { count ≤ 4 },
}

impl Clocks {
    /// C, unless it is out of its range.
    pub fn of(count: u32) -> Option<Clocks>
        ensures { MatchOption result (clocks? count ≡ false) (λ c. (clocks? count ≡ true) × (c.count ≡ count)) }
    {
        if !good_clocks(count) {
            return None;
        }
        Some(Clocks { count })
    }
}
