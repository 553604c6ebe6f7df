// The program but for its reading and writing: from the bytes of a file to the line that says what the judge made of it.
#![tactic(auto)]

pub mod words; // words.rt: the words of the bytes
mod parts; // parts.rt: which of the words are the table
pub mod text; // text.rt: the line of an answer
pub mod program; // program.rt: the line of a file
