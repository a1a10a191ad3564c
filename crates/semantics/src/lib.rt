#![tactic(auto)]
// The types of answers and refusals, and the numbers that steps work on.
mod refusals; // conversions of refusals

use frames::{Returned, Synced};
use soundness::Numbers;

// The state's numbers while steps run, with the tree's height and the number of free nodes.
#[derive(Clone, Copy)]
pub struct Head {
    pub numbers: Numbers,
    pub height: u32,
    pub free_count: u32,
}

// What an accepted step answers.
#[derive(Clone, Copy)]
pub enum Done {
    // the child's depth
    Spawned(u32),
    Ended(Returned),
    // the stolen frame's depth
    Stolen(u32),
    Waited(Synced),
    // the value
    Value(u32),
    // the free nodes left
    Written(u32),
    Folded,
}

// Document 01's refusals, 1 to 16 without 14, which no longer occurs (R-3), document 02's, 17 to 22, and the entries' own, 99.
#[derive(Clone, Copy, PartialEq, Eq)]
pub enum Refusal {
    Values,
    Workers,
    Nodes,
    Tape,
    Work,
    Unsound,
    Record,
    NoWorker,
    MainReturned,
    WorkerIdle,
    ThiefBusy,
    NoVictim,
    FramesFull,
    NoSplitter,
    PoolFull,
    // 17 to 19: an image's blocks, a block's check, the target of a save
    Blocks,
    BlockCheck,
    Target,
    // 20: no such reducer
    NoReducer,
    // 21: the places of the frame table, at a start
    Places,
    // 22: Main has not returned, or the span is 0
    Span,
    // a lent part of the state has not the length that it must have
    Lengths,
}

// R-7: the ends that a return begins: when the last of them is, where the parent of the frame that ended last is (none: it was Main), and whether that parent
// passes its sync.
#[derive(Clone, Copy)]
pub struct Rise {
    pub place: u32,
    pub passes: bool,
    pub clock: u64,
}
