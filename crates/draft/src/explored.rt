// All that is found of a model's zone graph, with what is kept of the model.
ghost use Rattle.std.specs.Prelude.{◌≤◌, length};
ghost use Rattle.draft.specs.Asked.{Located};

use crate::nodes::Node;
use crate::source::Source;

/// What is kept of a model and the nodes of its zone graph, all of them explored.
#[derive(Clone, Copy)]
pub(crate) struct Explored<'a> {
    pub source: Source<'a>,
    pub nodes: &'a [Node],
    ghost few: { length nodes.now ≤ 64 },
    ghost located: { Located source.model.now.index.locations nodes.now },
}
