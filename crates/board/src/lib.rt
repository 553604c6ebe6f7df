// The board of slots, document 02, card 3, by value: what a submission comes to, and the rank. The two calls over the caller's slots are in `miss_chance`.
#![tactic(auto)]

pub mod submissions; // submissions.rt: a submission, from its refusals to the slot that is to be written
pub mod ranking; // ranking.rt: the held slots in rank
