// The held slots in rank.
ghost use Rattle.std.specs.Prelude.{◌*◌, ◌<◌, ◌≡◌, T};
ghost use Rattle.answers.specs.Checks.{refused};
ghost use Rattle.board.specs.Board.{all_good?};
ghost use Rattle.board.specs.Replies.{ranking_of};
ghost use Rattle.board.specs.Ordering.{before?, better_of, FirstHeld, Orders, RanksLent};

use crate::submissions;
use crate::submissions::Placed;
use answers::Reason;
use slots::Slot;

/// The ranking: 0 and the numbers of the held slots in rank, as many as `count` says, or a refusal's number and place; zeros behind them.
// kept: C gets this struct, and has no enum with values and no slice with a length
#[repr(C)]
#[derive(Clone, Copy, Debug, PartialEq, Eq)]
pub struct Ranking {
    pub number: u32,
    pub place: usize,
    pub count: usize,
    pub order: [usize; 16],
}

pub(crate) fn product(a: u32, b: u32) -> u64
    ensures { result ≡ a * b }
{
    u64::from(a) * u64::from(b)
}

/// Slot x comes before slot y: its fraction is smaller, or the same and its number lower. Fractions are compared by their cross products.
pub(crate) fn before(x: Placed, y: Placed) -> bool
    ensures { result ≡ before? x.slot x.at y.slot y.at }
{
    (product(x.slot.b, y.slot.whole), x.at) < (product(y.slot.b, x.slot.whole), y.at)
}

/// The better of the best so far, where there is one, and one slot more, which counts where it is held.
#[tactic(auto, unfolding(crate::specs::Ordering::better_of))]
pub(crate) fn better(next: Placed, best: Option<Placed>) -> Option<Placed>
    ensures { result ≡ better_of next.slot next.at best }
{
    if next.slot.held && best.is_none_or(|b| before(next, b)) {
        return Some(next);
    }
    best
}

/// The first of the held slots in rank.
pub(crate) fn first(slots: &[Slot; 16]) -> Option<Placed>
    requires { T (all_good? slots.now) }
    ensures { FirstHeld slots.now 16 result }
{
    slots.iter().enumerate().fold(None, |best, (at, &slot)| better(Placed { at, slot }, best))
}

/// The held slots in rank, where the slots are in range: the first one, then each time the first of those that are left.
pub(crate) fn ordered(slots: [Slot; 16]) -> Ranking
    requires { T (all_good? slots) }
    ensures { Orders slots result }
{
    let mut left = slots;
    let mut order = [0; 16];
    // kept: a count beside the array, as the struct for C has them; each turn finds the one slot that comes next
    let mut count = 0;
    while let Some(next) = first(&left) {
        order[count] = next.at;
        count += 1;
        left[next.at] = Slot::VACANT;
    }
    Ranking {
        number: 0,
        place: 0,
        count,
        order,
    }
}

/// The answer 54.
#[tactic(auto, unfolding(answers::specs::Refusals::number, crate::specs::Replies::ranking_of))]
pub(crate) fn out_of_range() -> Ranking
    ensures { result ≡ ranking_of (refused 54 0) }
{
    Ranking {
        number: Reason::BoardOutOfRange.number(),
        place: 0,
        count: 0,
        order: [0; 16],
    }
}

/// The held slots in rank, or 54.
#[tactic(auto, using(crate::proofs::RankingLaws::not_read, crate::proofs::RankingLaws::not_good, crate::proofs::RankingLaws::all_ranked))]
pub fn ranked(lent: Result<[Slot; 16], usize>) -> Ranking
    ensures { RanksLent lent result }
{
    let Ok(slots) = lent else {
        return out_of_range();
    };
    if !submissions::all_good(&slots) {
        return out_of_range();
    }
    ordered(slots)
}
