// What is kept of a model, as exploring and the rounds read it.
ghost use Rattle.draft.specs.Asked.{ModelAsked};

use model::index::IndexedModel;
use zone::clocks::Clocks;

/// What is kept of a model, with what exploring and the rounds ask of it.
// kept: that a location exists is asked where its number is handed over: it is of a number and the model at hand, so no type of the number has it.
#[derive(Clone, Copy)]
pub(crate) struct Source<'a> {
    pub model: &'a IndexedModel,
    ghost asked: { ModelAsked model.now },
}

impl<'a> Source<'a> {
    ghost use Rattle.std.specs.Prelude.{◌≡◌};
    ghost use Rattle.draft.specs.Asked.{edges_of, ActionAsked};

    // C, as reading a zone asks for it.
    pub(crate) fn clocks(&self) -> Clocks
        ensures { result.count ≡ self.now.model.now.index.clocks }
    {
        Clocks {
            count: self.model.index.clocks,
        }
    }

    // The words of an action's edges.
    pub(crate) fn edges_of(&self, a: usize) -> &'a [u32]
        requires { ActionAsked self.now.model.now a }
        ensures { result.now ≡ edges_of self.now.model.now a }
    {
        let model = self.model;
        &model.edges[model.index.edges_of(a)]
    }
}
