// The call that reads a model, with refusals 1 to 6, and what judging needs of an accepted one.
ghost use Rattle.std.specs.Prelude.{◌≡◌};
ghost use Rattle.answers.specs.Refusals.{answer_of};
ghost use Rattle.model.specs.Reading.{ReadModel};
ghost use Rattle.model.specs.Index.{scanned, lacks_location?, missing_of, whole_read, counted};
ghost use Rattle.model.specs.Indexed.{IndexedWhere};

use crate::fields;
use crate::index::{Index, IndexedModel};
use crate::kinds::{Follows, Kind};
use crate::places::START_BOUNDS;
use crate::reader::Reader;
use crate::seen::Seen;
use answers::{Reason, Refusal};
use zone::zones::Zone;

/// How many locations, actions and edges a model has.
#[derive(Clone, Copy, Debug, PartialEq, Eq)]
pub struct Counts {
    pub locations: usize,
    pub actions: usize,
    pub edges: usize,
}

/// What an accepted model comes to beside what is kept of it: its counts, and the zone of its start valuations, tightened.
#[derive(Clone, Copy, Debug, PartialEq, Eq)]
pub struct ModelRead {
    pub counts: Counts,
    pub initial: Zone,
}

// Whether a word is an edge whose location is not one of so many.
pub(crate) fn lacks_location(locations: usize, word: u32) -> bool
    ensures { result ≡ lacks_location? locations word }
{
    Kind::Edge.is(word) & (locations <= fields::lands_at(word) as usize)
}

// The index of the first edge word whose location does not exist.
#[tactic(auto, unfolding(crate::specs::Index::missing_of))]
pub(crate) fn missing_of(list: &[u32], seen: &Seen) -> Option<usize>
    ensures { result ≡ missing_of seen.now list.now }
{
    let locations = seen.locations;
    pass::first_missing(
        list,
        seen.furthest,
        locations,
        |word| lacks_location(locations, word),
    )
}

// What words that pass their checks come to, where `initial` is the zone of the start valuations: the refusals on the whole file, or an acceptance.
#[tactic(auto, unfolding(crate::specs::Index::whole_read))]
pub(crate) fn whole_read(list: &[u32], seen: &Seen, initial: Zone) -> Result<ModelRead, Refusal>
    ensures { result ≡ whole_read (missing_of seen.now list.now) initial seen.now }
{
    if let Some(place) = missing_of(list, seen) {
        return Err(Reason::NoLocation.at(place));
    }
    if initial.is_empty() {
        return Err(Reason::NoStart.at(seen.place));
    }
    Ok(ModelRead {
        counts: seen.counts(),
        initial,
    })
}

/// Reads a model, and works out once what judging needs of it. Whatever the words, what is kept of them is what the pass leaves.
pub fn index_model(list: &[u32], model: &mut IndexedModel) -> Result<ModelRead, Refusal>
    ensures answers { ReadModel list.now (answer_of (counted result)) }
    ensures indexed { IndexedWhere list.now result model.new }
    ensures leaves { model.new ≡ (scanned list.now model.old).kept }
{
    let reader = Reader {
        follows: Follows::table(),
    };
    model.index = Index::EMPTY;
    let seen = pass::scan(&reader, list, Seen::NOTHING, model)?;
    let invariant = model.zones[seen.start as usize];
    let bounds = model.zones[START_BOUNDS];
    let initial = invariant.meet(bounds).tighten();
    whole_read(list, &seen, initial)
}

/// Reads a model: its counts, or the refusal with its place.
pub fn read_model(list: &[u32]) -> Result<Counts, Refusal>
    ensures { ReadModel list.now (answer_of result) }
{
    let mut model = IndexedModel::EMPTY;
    let read = index_model(list, &mut model)?;
    Ok(read.counts)
}
