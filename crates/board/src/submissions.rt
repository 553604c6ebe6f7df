// A submission: its refusals before the judge, the judge's answer, what is spent, and the slot that is to be written.
ghost use Rattle.std.specs.Prelude.{◌<◌, ◌≡◌, Ok};
ghost use Rattle.answers.specs.Checks.{First};
ghost use Rattle.answers.specs.Refusals.{answer_of};
ghost use Rattle.board.specs.Board.{good_slot?, all_good?, good_ledger?, spend};
ghost use Rattle.board.specs.Submissions.{may_write?};
ghost use Rattle.board.specs.Replies.{submission, reply_of};
ghost use Rattle.board.specs.Deciding.{lent_in_range?, lent_checks, Writes, put_for, ComesTo, Decides};

use acceptance::certificate::Certificate;
use answers::{Reason, Refusal};
use judge::verdict;
use slots::Slot;

/// What a submission names beside its two files.
// kept: C passes this struct
#[repr(C)]
#[derive(Clone, Copy, Debug, PartialEq, Eq)]
pub struct Request {
    pub team: u32,
    pub slot: u32,
}

/// What stands beside the slots, handed over and back: how many submissions are left for everybody.
// kept: C passes this struct and gets it back
#[repr(C)]
#[derive(Clone, Copy, Debug, PartialEq, Eq)]
pub struct Ledger {
    pub allowance: u32,
}

/// The answer: a refusal's number and place, or 0 and what an acceptance gives.
// kept: C gets this struct, and has no enum with values
#[repr(C)]
#[derive(Clone, Copy, Debug, PartialEq, Eq)]
pub struct Reply {
    pub number: u32,
    pub place: usize,
    pub b: u32,
    pub whole: u32, // V
    pub nodes: usize,
}

/// The answer, and what then stands beside the slots.
#[repr(C)]
#[derive(Clone, Copy, Debug, PartialEq, Eq)]
pub struct Submitted {
    pub answer: Reply,
    pub ledger: Ledger,
}

/// A slot and its place, from 0.
#[derive(Clone, Copy, Debug, PartialEq, Eq)]
pub struct Placed {
    pub at: usize,
    pub slot: Slot,
}

/// What a submission comes to, with the slot that it writes, if any.
#[derive(Clone, Copy, Debug, PartialEq, Eq)]
pub struct Decision {
    pub submitted: Submitted,
    pub write: Option<Placed>,
}

/// A vacant slot, or one with a team and a fraction that a table could give.
pub(crate) fn good_slot(s: Slot) -> bool
    ensures { result ≡ good_slot? s }
{
    !s.held || s.team <= 7 && 1 <= s.whole && s.whole <= 268_435_455 && s.b <= s.whole
}

/// The held slots are in range.
pub(crate) fn all_good(slots: &[Slot; 16]) -> bool
    ensures { result ≡ all_good? slots.now }
{
    slots.iter().all(|slot| good_slot(*slot))
}

/// What stands beside the slots is in range.
pub(crate) fn good_ledger(l: Ledger) -> bool
    ensures { result ≡ good_ledger? l }
{
    l.allowance <= 100
}

/// The slot is vacant or the team's own.
pub(crate) fn may_write(team: u32, s: Slot) -> bool
    ensures { result ≡ may_write? team s }
{
    !s.held || s.team == team
}

/// The slots that were read, what stands beside them and what a submission names are in range.
// kept: ledger and request side by side, here and below, as C hands them over
pub(crate) fn in_range(slots: &[Slot; 16], ledger: Ledger, request: Request) -> bool
    ensures { result ≡ lent_in_range? (Ok slots.now) ledger request }
{
    all_good(slots) && good_ledger(ledger) && request.team <= 7 && request.slot < 16
}

impl From<Result<Certificate, Refusal>> for Reply {
    ghost from_gives = { λ answer reply. reply ≡ reply_of (answer_of answer) };

    #[tactic(auto, unfolding(crate::specs::Replies::reply_of, answers::specs::Refusals::answer_of))]
    fn from(answer: Result<Certificate, Refusal>) -> Reply {
        match answer {
            Ok(certificate) => Reply {
                number: 0,
                place: 0,
                b: certificate.b,
                whole: certificate.whole,
                nodes: certificate.nodes,
            },
            Err(refusal) => Reply {
                number: refusal.reason.number(),
                place: refusal.place,
                b: 0,
                whole: 0,
                nodes: 0,
            },
        }
    }
}

/// What is left where a submission gets as far as the judge, or 54, 55 or 56.
#[tactic(auto, using(crate::proofs::DecisionLaws::admitting))]
pub(crate) fn admitted(
    lent: &Result<[Slot; 16], usize>,
    ledger: Ledger,
    request: Request,
) -> Result<Ledger, Refusal>
    ensures { First (lent_checks lent.now ledger request) (λ left. left ≡ spend ledger) (answer_of result) }
{
    let Ok(slots) = lent else {
        return Err(Reason::BoardOutOfRange.at(0));
    };
    if !in_range(slots, ledger, request) {
        return Err(Reason::BoardOutOfRange.at(0));
    }
    if ledger.allowance == 0 {
        return Err(Reason::AllowanceSpent.at(0));
    }
    if !may_write(request.team, slots[request.slot as usize]) {
        return Err(Reason::SlotHeldByOther.at(0));
    }
    Ok(Ledger {
        allowance: ledger.allowance - 1,
    })
}

/// The slot that an answer writes: an acceptance writes the named one, and a refusal none.
#[tactic(auto, unfolding(crate::specs::Deciding::put_for, crate::specs::Submissions::put_of, answers::specs::Refusals::answer_of))]
pub(crate) fn slot_for(request: Request, answer: Result<Certificate, Refusal>) -> Option<Placed>
    ensures { Writes (put_for request (answer_of answer)) result }
{
    match answer {
        Ok(certificate) => Some(Placed {
            at: request.slot as usize,
            slot: Slot {
                held: true,
                team: request.team,
                b: certificate.b,
                whole: certificate.whole,
            },
        }),
        Err(_) => None,
    }
}

/// What an answer comes to, with what is then left.
pub(crate) fn outcome(
    request: Request,
    answer: Result<Certificate, Refusal>,
    ledger: Ledger,
) -> Decision
    ensures { ComesTo request (answer_of answer) ledger result }
{
    Decision {
        submitted: Submitted {
            answer: Reply::from(answer),
            ledger,
        },
        write: slot_for(request, answer),
    }
}

/// What a submission comes to: 54, 55, 56, or the judge's answer, which spends one.
pub fn decide(
    lent: Result<[Slot; 16], usize>,
    ledger: Ledger,
    request: Request,
    model: &[u32],
    table: &[u32],
) -> Decision
    ensures { Decides lent ledger (submission request model.now table.now) result }
{
    match admitted(&lent, ledger, request) {
        Ok(left) => outcome(request, verdict::judge(model, table), left),
        Err(refusal) => outcome(request, Err(refusal), ledger),
    }
}
