// What a table drafted for a model is: document 02, card 5. The definitions and the theorems about them are a crate of their own, so that they are
// checked without the code; what runs is in `draft`.
#![tactic(auto)]
