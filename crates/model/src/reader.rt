// The reader of a model's words: what a pass over them asks of each word, and what it keeps of it.
use crate::fields;
use crate::index::IndexedModel;
use crate::kinds::{Follows, Kind};
use crate::places::{GUARDS, START_BOUNDS};
use crate::seen::Seen;
use answers::Reason;
use pass::Pass;
use zone::words;
use zone::zones::Zone;

/// Reads the words of a model, by the constant table.
#[derive(Clone, Copy)]
pub(crate) struct Reader {
    pub follows: Follows,
}

impl Reader {
    ghost use Rattle.std.specs.Prelude.{◌≡◌, true, Ok};
    ghost use Rattle.model.specs.Kinds.{bound, number, kind_of};
    ghost use Rattle.model.specs.Openers.{opener?};
    ghost use Rattle.model.specs.Scan.{checked};

    // Whether a word is a bound that passes its checks. It has no limit, and no weights end before it.
    // kept: its kind is asked by number, since this is asked of every word. Table's is alike, but what may follow and the fields are each file's own.
    #[tactic(auto, using(crate::proofs::WordChecks::named_bound, crate::proofs::WordChecks::bound_passes))]
    pub(crate) fn good_bound(&self, seen: &Seen, word: u32) -> bool
        requires { opener? (number seen.now.opener) ≡ true }
        ensures { result ≡ true → (kind_of word ≡ bound) × (checked seen.now word ≡ Ok tt) }
    {
        words::kind_of(word) == words::BOUND
            && self.follows.in_model(seen.opener, word)
            && seen.bound_fields(word)
    }
}

impl Pass for Reader {
    ghost use Rattle.model.specs.Scan.{WithinLimits};
    ghost use Rattle.model.specs.Index.{steps};

    type Seen = Seen;

    type Kept = IndexedModel;

    ghost steps = { λ _. steps };

    ghost holds = { λ _ s. WithinLimits s };

    #[tactic(auto, unfolding(crate::specs::Scan::checked))]
    fn check(&self, seen: &Seen, word: u32) -> Result<(), Reason> {
        if !self.follows.in_model(seen.opener, word) {
            return Err(Reason::BadModelKind);
        }
        if !seen.fields(word) {
            return Err(Reason::BadModelField);
        }
        if !seen.limit(word) {
            return Err(Reason::OverModelLimit);
        }
        if !seen.adds(word) {
            return Err(Reason::BadWeights);
        }
        Ok(())
    }

    fn pick(&self, seen: &Seen, kept: &mut IndexedModel, word: u32) -> bool {
        if !self.good_bound(seen, word) {
            return false;
        }
        kept.zones[seen.slot].add_bound(word);
        true
    }

    // An opener puts every valuation at its slot, and each of its bounds is picked there.
    #[tactic(auto, using(crate::proofs::Limits::room_location, crate::proofs::Limits::room_action, crate::proofs::Limits::room_edge, crate::proofs::Limits::bound_cell), unfolding(crate::specs::Scan::seen_with, crate::specs::Scan::seen_with_kind, crate::specs::Index::kept_with, crate::specs::Index::kept_with_kind))]
    fn take(&self, seen: &mut Seen, kept: &mut IndexedModel, word: u32, place: usize) {
        match Kind::of(word) {
            Kind::Bound => kept.zones[seen.slot].add_bound(word),
            Kind::Head => seen.add_head(word),
            Kind::Location => {
                kept.index.targets[seen.locations] = fields::is_target(word);
                kept.index.actions[seen.locations] = seen.actions as u8;
                kept.zones[seen.locations] = Zone::universe();
                seen.add_location();
            }
            Kind::Action => {
                kept.index.edges[seen.actions] = seen.edges as u8;
                kept.zones[GUARDS + seen.actions] = Zone::universe();
                seen.add_action();
            }
            Kind::Edge => {
                kept.edges[seen.edges] = word;
                seen.add_edge(word);
            }
            Kind::Start => {
                kept.zones[START_BOUNDS] = Zone::universe();
                seen.add_start(word, place);
            }
            Kind::None => {}
        }
    }

    // The last location and the last action end where the words end.
    #[tactic(auto, unfolding(crate::specs::Index::closed))]
    fn close(&self, seen: &Seen, kept: &mut IndexedModel) {
        kept.index.clocks = seen.clocks;
        kept.index.denominator = seen.denominator;
        kept.index.locations = seen.locations;
        kept.index.start = seen.start;
        kept.index.actions[seen.locations] = seen.actions as u8;
        kept.index.edges[seen.actions] = seen.edges as u8;
    }

    // Unless the start was read, a word is missing.
    #[tactic(auto, using(crate::proofs::KindLaws::same_start), unfolding(crate::specs::Scan::checked_end))]
    fn check_end(&self, seen: &Seen) -> Result<(), Reason> {
        if seen.opener != Kind::Start {
            return Err(Reason::BadModelKind);
        }
        Ok(())
    }
}
