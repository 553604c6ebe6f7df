// What an acceptance of a table gives.

/// The certified fraction b / V, and how many nodes the table has.
#[derive(Clone, Copy, Debug, PartialEq, Eq)]
pub struct Certificate {
    pub b: u32,
    pub whole: u32, // V
    pub nodes: usize,
}
