#![tactic(auto)]
// R-7: the clocks of a run, two 64-bit words for each place of the frame table, in a lent slice: what a step does to them, and the report's words. Each contract is an
// equation with a definition of the crate semantics (Timing, Report).
ghost use Rattle.std.specs.Prelude.{◌≡◌, suc, ◌+◌, ◌^◌, ◌<◌};

mod clocks;
mod ends;
mod turns;

pub use clocks::{clear_clocks, put_report};
pub use ends::rise_of;
pub use turns::{bottom_of, time_data, time_first, turn_end};

// Work and span.
#[derive(Clone, Copy)]
pub struct Tally {
    pub work: u64,
    pub span: u64,
}

impl Tally {
    // After a step that costs 1.
    fn costing(self) -> Tally
        requires { self.work + 1 < 2 ^ 64 }
        ensures { (result.work ≡ suc self.work) × (result.span ≡ self.span) }
    {
        Tally {
            work: self.work + 1,
            ..self
        }
    }
}
