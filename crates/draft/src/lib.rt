// A table drafted for a model: document 02, card 5.
#![tactic(auto)]

mod source; // source.rt: what is kept of a model
mod nodes; // nodes.rt: a node, and the words of its kind
mod fronts; // fronts.rt: the location and bounds of a zone's node
mod graph; // graph.rt: the nodes found, in order of discovery
mod explore; // explore.rt: exploring, by action and edge
mod explored; // explored.rt: all that is found, with the model
mod values; // values.rt: the values of nodes, and what a code has in a sum
mod rounds; // rounds.rt: the values, round by round
mod write; // write.rt: the draft put into the lent words
pub mod call; // call.rt: the call that drafts a table
