// Reading a table against a model: document 01, "Words" for kinds 7 to C, document 02, card 1 for kind D, and refusals 11 to 14.
#![tactic(auto)]

pub mod fields; // fields.rt: the fields of a table's words
pub mod nodes; // nodes.rt: what is kept of a table and of its nodes
mod due; // due.rt: how many rows a node has, and how many words a row
mod seen; // seen.rt: what the words read so far come to
mod reader; // reader.rt: the steps of a pass over the words
pub mod read; // read.rt: a table's nodes, or the refusal with its place
