// What the words of a model read so far come to, and the checks of the next word.
ghost use Rattle.std.specs.Prelude.{◌≡◌, ◌≤◌, ◌*◌, ◌^◌};
ghost use Rattle.model.specs.Kinds.{bound, number};
ghost use Rattle.model.specs.Fields.{fields?};
ghost use Rattle.model.specs.Scan.{fields_at?, limit_at?, adds_at?};
ghost use Rattle.model.specs.Scan.{with_head, with_location, with_action, with_edge, with_start};
ghost use Rattle.model.specs.Index.{counts_at};

use crate::kinds::Kind;
use crate::read::Counts;
use crate::{fields, places};
use zone::words;

// What the words read so far come to, for the checks of the next word and for the index.
#[derive(Clone, Copy, Debug, PartialEq, Eq)]
pub(crate) struct Seen {
    pub opener: Kind, // the kind of the last word that is no bound
    pub clocks: u32, // of the head
    pub denominator: u32, // of the head
    pub locations: usize, // how many there are
    pub actions: usize, // how many there are
    pub edges: usize, // how many there are
    pub run: usize, // how many edges the last action has
    pub weights: u32, // what their weights add to
    pub slot: usize, // where the zone of the opener stands
    pub start: u32, // the start's location
    pub place: usize, // the index of the start word
    pub furthest: u32, // the largest location number that an edge leads to
}

impl Seen {
    pub(crate) const NOTHING: Seen = Seen {
        opener: Kind::None,
        clocks: 0,
        denominator: 0,
        locations: 0,
        actions: 0,
        edges: 0,
        run: 0,
        weights: 0,
        slot: 0,
        start: 0,
        place: 0,
        furthest: 0,
    };

    // Whether the fields of a bound word are in their ranges and its spare bits zero. But for the start bounds, one of its clocks is clock 0.
    pub(crate) fn bound_fields(&self, word: u32) -> bool
        ensures { result ≡ fields? bound self.now.clocks self.now.denominator self.now.locations (number self.now.opener) word }
    {
        words::bound_fields(self.clocks, word)
            & ((self.opener == Kind::Start) | fields::one_zero(word))
    }

    // Whether the fields of a word are in their ranges and its spare bits zero.
    // kept: `clocks` is a number at most 4, as at `fields::edge_fields`.
    pub(crate) fn fields(&self, word: u32) -> bool
        requires { self.now.clocks ≤ 4 }
        ensures { result ≡ fields_at? self.now word }
    {
        match Kind::of(word) {
            Kind::Head => fields::head_fields(word),
            Kind::Location => fields::location_fields(word),
            Kind::Action => fields::action_fields(word),
            Kind::Edge => fields::edge_fields(self.clocks, self.denominator, word),
            Kind::Bound => self.bound_fields(word),
            Kind::Start => fields::start_fields(self.locations, word),
            Kind::None => false,
        }
    }

    // Whether one more of the word's kind is within its limit.
    pub(crate) fn limit(&self, word: u32) -> bool
        ensures { result ≡ limit_at? self.now word }
    {
        match Kind::of(word) {
            Kind::Location => self.locations < 16,
            Kind::Action => self.actions < 32,
            Kind::Edge => self.run < 4,
            Kind::None | Kind::Head | Kind::Bound | Kind::Start => true,
        }
    }

    // Whether the weights of the last action add to the denominator, where the word is the one after its last edge.
    #[tactic(auto, using(crate::proofs::KindLaws::same_edge))]
    pub(crate) fn adds(&self, word: u32) -> bool
        ensures { result ≡ adds_at? self.now word }
    {
        !(self.opener == Kind::Edge) | Kind::Edge.is(word) | (self.weights == self.denominator)
    }

    // Adds a head word.
    pub(crate) fn add_head(&mut self, word: u32)
        ensures { self.new ≡ with_head self.old word }
    {
        self.opener = Kind::Head;
        self.clocks = fields::clocks_of(word);
        self.denominator = fields::denominator_of(word);
    }

    // Adds a location.
    // kept: what this, `add_action` and `add_start` share is four assignments; a function of them would need a definition of its own to promise.
    pub(crate) fn add_location(&mut self)
        requires { self.old.locations ≤ 16 }
        ensures { self.new ≡ with_location self.old }
    {
        self.opener = Kind::Location;
        self.slot = self.locations;
        self.locations += 1;
        self.run = 0;
        self.weights = 0;
    }

    // Adds an action.
    pub(crate) fn add_action(&mut self)
        requires { self.old.actions ≤ 32 }
        ensures { self.new ≡ with_action self.old }
    {
        self.opener = Kind::Action;
        self.slot = places::GUARDS + self.actions;
        self.actions += 1;
        self.run = 0;
        self.weights = 0;
    }

    // Adds an edge word.
    pub(crate) fn add_edge(&mut self, word: u32)
        requires { (self.old.edges ≤ 128) × (self.old.run ≤ 4) × (self.old.weights ≤ 4 * 2 ^ 16) }
        ensures { self.new ≡ with_edge self.old word }
    {
        self.opener = Kind::Edge;
        self.edges += 1;
        self.run += 1;
        self.weights += fields::weight_of(word);
        self.furthest = self.furthest.max(fields::lands_at(word));
    }

    // Adds a start word at a place.
    pub(crate) fn add_start(&mut self, word: u32, place: usize)
        ensures { self.new ≡ with_start self.old word place }
    {
        self.opener = Kind::Start;
        self.run = 0;
        self.weights = 0;
        self.slot = places::START_BOUNDS;
        self.start = fields::start_of(word);
        self.place = place;
    }

    // How many locations, actions and edges there are.
    pub(crate) fn counts(&self) -> Counts
        ensures { result ≡ counts_at self.now }
    {
        Counts {
            locations: self.locations,
            actions: self.actions,
            edges: self.edges,
        }
    }
}
