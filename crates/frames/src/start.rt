// The frame table at the start, and cleared.
ghost use Rattle.std.specs.Prelude.{◌≡◌, ◌≤◌, ◌<◌, length, replicate};
ghost use Rattle.frames.specs.Widths.{max_places};
ghost use Rattle.frames.specs.Frames.{free_record, init_frames};

use super::table::put_frame;
use super::{Frame, NONE};

// Every record zero.
pub fn clear_frames(frames: &mut [Frame])
    ensures { frames.new ≡ replicate (length frames.old) (free_record 0) }
{
    frames.fill(Frame::free(0));
}

// Main in place 0, the others free, in rising order.
#[tactic(auto, using(crate::proofs::Starting::starting))]
pub fn init_frames(frames: &mut [Frame])
    requires { (0 < length frames.old) × (length frames.old ≤ max_places) }
    ensures { frames.new ≡ init_frames frames.old }
{
    put_frame(frames, 0, Frame::main(0));
    let places = frames.len() as u32;
    for p in 1..places {
        let next = if p + 1 < places { p + 1 } else { NONE };
        put_frame(frames, p, Frame::free(next));
    }
}
