#![tactic(auto)]
// The types that the soundness of a state and a pool is said with: the state's numbers, and what a check finds.

// The state's numbers, in the order of document 02's image.
#[derive(Clone, Copy)]
pub struct Numbers {
    pub workers: u32,
    pub splitters: u32,
    pub nodes: u32,
    // the first free node, or none
    pub free_node: u32,
    // the first free frame place, or none
    pub free_place: u32,
    // how many places the frame table has (R-6)
    pub places: u32,
}

// Why the check refuses a state and its pool; if it does not, it finds the number of free nodes.
#[derive(Clone, Copy, PartialEq, Eq)]
pub enum CheckError {
    // the work slice has fewer words than the recorded nodes
    NoRoom,
    Unsound,
}
