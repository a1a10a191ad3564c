#![tactic(auto)]
// The frame records and the workers' deques, in lent words; what the steps do to them. The deques have their exact length, and a record's place is asked
// to be one, but where a word of a record is followed that may be none.
ghost use Rattle.std.specs.Prelude.{◌≡◌};

mod deques;
mod records;
mod siblings;
mod start;
mod steps;
mod table;

pub use deques::{acting_place, init_deques, place_at, pop_off, size_at, top_at};
use reducers::View;
pub use start::{clear_frames, init_frames};
pub use steps::{
    end_below, end_frame, fold_at, go_on, spawn_frame, steal_frame, sync_frame, wait_frame,
};
pub use table::{frame_at, frame_or_zero, put_frame};
pub use words::NONE;

// The widths of specs/Widths.antt.
pub const MAX_WORKERS: u32 = 8;

pub const MAX_PLACES: u32 = 256;

pub const RECORD_WORDS: usize = 12;

pub const DEQUE_PLACES: u32 = 256;

pub const DEQUE_STRIDE: usize = 1 + DEQUE_PLACES as usize;

pub const DEQUE_WORDS: usize = MAX_WORKERS as usize * DEQUE_STRIDE;

// A frame record. live, suspended and returning are 0 or 1, and a frame that waits in its return is both suspended and returning;
// parent is the parent's place, none for Main, and for a free place the next free place or none.
#[repr(C)]
#[derive(Clone, Copy)]
pub struct Frame {
    pub live: u32,
    pub parent: u32,
    pub depth: u32,
    pub outstanding: u32,
    pub suspended: u32,
    pub root: u32,
    pub returning: u32,
    // what the frame has folded and has been handed on to it, of each reducer (R-5)
    pub view: View,
    // the place of the next younger live sibling, or none
    pub younger: u32,
}

// How a return went on (document 01's outcomes 0 to 3, and R-3's 4).
#[derive(Clone, Copy)]
pub enum Returned {
    // the parent is the bottom now
    Continued = 0,
    // the worker is idle
    Idle = 1,
    // the parent resumes on this worker
    Resumed = 2,
    // Main has ended
    Finished = 3,
    // a child lives: the frame waits for it
    Waiting = 4,
}

// How a sync went on (outcomes 0 and 1).
#[derive(Clone, Copy)]
pub enum Synced {
    Passed = 0,
    Suspended = 1,
}

impl From<Returned> for u32 {
    ghost use Rattle.frames.specs.Steps.{returned_number};

    ghost from_gives = { λ outcome n. n ≡ returned_number outcome };

    fn from(outcome: Returned) -> u32 {
        outcome as u32
    }
}

impl From<Synced> for u32 {
    ghost use Rattle.frames.specs.Steps.{synced_number};

    ghost from_gives = { λ outcome n. n ≡ synced_number outcome };

    fn from(outcome: Synced) -> u32 {
        outcome as u32
    }
}
