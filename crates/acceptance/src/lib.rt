// What judging a table means: document 01, "Moves and schedulers", "When a table is accepted", and the checks of judging in their order. The
// definitions and the theorems about them are a crate of their own, so that they are checked without the code; what runs is in `judge`.
#![tactic(auto)]

pub mod certificate; // certificate.rt: what an acceptance gives
