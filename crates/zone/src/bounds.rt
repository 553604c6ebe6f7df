// A bound of the difference of two clocks in one number, by value: the tighter of two, their sum, and whether one is negative. No branches.
ghost use Rattle.std.specs.Prelude.{◌≡◌, ◌<◌, ◌^◌, max, pos, ◌-ℤ◌};
ghost use Rattle.std.specs.Int.Signed.{lt_z};
ghost use Rattle.zone.specs.Keys.{PickOf, lowest};
ghost use Rattle.zone.specs.Cells.{tighter?, tighter_of, sum, negated, negative?, size};

/// A bound of the difference of two clocks, at most d time units, or below d if strict: its key is 2 * d, and one more unless it is strict. Keys
/// from FINITE_BELOW up are those of absent bounds.
// kept: no `Ord`, and no `Option` for an absent bound, since document 02, card 2, has the tighter of two picked by arithmetic, without a branch
#[derive(Clone, Copy, Debug, PartialEq, Eq)]
pub struct Bound {
    pub key: i32,
}

impl Bound {
    pub const FINITE_BELOW: i32 = 0x1000_0000;

    pub const UNBOUNDED: Bound = Bound { key: 0x2000_0000 };

    pub const AT_MOST_ZERO: Bound = Bound { key: 1 };

    // How far the key lies above the other's; the wider type holds every difference.
    pub(crate) fn gap(self, other: Bound) -> i64
        ensures { result ≡ self.key -ℤ other.key }
    {
        self.key as i64 + -(other.key as i64)
    }

    // Whether the key is the smaller one.
    pub(crate) fn below(self, other: Bound) -> bool
        ensures { result ≡ lt_z self.key other.key }
    {
        self.gap(other) < 0
    }

    // Whether the key is the smaller one and not that of an absent bound.
    pub(crate) fn tighter(self, other: Bound) -> bool
        ensures { result ≡ tighter? self other }
    {
        (self.key < Bound::FINITE_BELOW) & self.below(other)
    }

    /// The one with the smaller key, the first where they are equal: it holds exactly where both hold.
    pub fn tighter_of(self, other: Bound) -> Bound
        ensures picks { result ≡ tighter_of self other }
        ensures means { PickOf self other result }
    {
        let less = other.below(self) as i32;
        Bound {
            key: self.key * (1 - less) + other.key * less,
        }
    }

    // By how much the sum of the two keys is too large: 1 where either is odd.
    pub(crate) fn excess(self, other: Bound) -> i32
        ensures { result ≡ pos (max (lowest self.key) (lowest other.key)) }
    {
        (self.key | other.key) & 1
    }

    // What a bound of clock i minus clock m and one of clock m minus clock j give for clock i minus clock j: strict if either is.
    pub(crate) fn sum(self, other: Bound) -> Bound
        requires { (size self < 2 ^ 27) × (size other < 2 ^ 27) }
        ensures { result ≡ sum self other }
    {
        Bound {
            key: self.key + other.key - self.excess(other),
        }
    }

    // Of a bound of clock i minus clock j, the bound of clock j minus clock i that holds exactly where this one does not: at most d becomes below
    // -d, and below d becomes at most -d.
    pub(crate) fn negated(self) -> Bound
        requires { size self < 2 ^ 27 }
        ensures { result ≡ negated self }
    {
        Bound { key: 1 - self.key }
    }

    // Tighter than "at most 0", so that it never holds of a clock minus itself.
    pub(crate) fn negative(self) -> bool
        ensures { result ≡ negative? self }
    {
        self.tighter(Bound::AT_MOST_ZERO)
    }
}
