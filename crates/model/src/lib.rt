#![tactic(auto)]

pub mod record; // record.rt: a record's bytes to its step

// A step of a worker: one of seven kinds, each with only its own fields (document 01, R-5).
#[derive(Clone, Copy)]
pub enum Step {
    Spawn(u32),
    Return(u32),
    Steal(u32, u32),
    Sync(u32),
    Read(u32, u32),
    Write(u32, u32, u32),
    Fold(u32, u32, u32),
}
