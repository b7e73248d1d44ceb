// Drawing a sheet and a routine list from banks alone: definitions and the theorem; nothing here
// runs.
#![tactic(auto)]

// What is known of a reached address: the entry of its routine, its depth, whether V may still be
// marked there, and, of an entry, the need found so far.
#[derive(Clone, Copy)]
pub struct Cell {
    pub entry: u8,
    pub depth: u8,
    pub mark: bool,
    pub need: u8,
}
