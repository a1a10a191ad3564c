// The ends of a return, on the table before it.
ghost use Rattle.std.specs.Prelude.{◌≡◌, ◌+◌, ◌*◌, ◌≤◌, length};
ghost use Rattle.frames.specs.Frames.{frame_at};
ghost use Rattle.semantics.specs.Timing.{latest, rise};
ghost use Rattle.timing.specs.Turns.{kind_at};

use crate::clocks::{latest_at, waits_for_one};
use crate::turns::kind_at;
use frames::{Frame, NONE, frame_or_zero};
use semantics::Rise;

// The parent of the frame that ended last goes on.
pub fn stops_at(q: u32, waits: bool, t: u64) -> Rise
    ensures { result ≡ record { place = q; passes = waits; clock = t } }
{
    Rise {
        place: q,
        passes: waits,
        clock: t,
    }
}

// The frame at `first` ends at the time t, and so do those upward of it that wait in their returns for it alone.
pub fn rise(clocks: &[u64], frames: &[Frame], first: u32, t: u64) -> Rise
    ensures { result ≡ rise (frame_at frames.now first).depth frames.now clocks.now first t }
{
    let mut p = first;
    let mut clock = t;
    for _ in 0..frame_or_zero(frames, first).depth {
        let q = frame_or_zero(frames, p).parent;
        let f = frame_or_zero(frames, q);
        if !waits_for_one(f) {
            return stops_at(q, false, clock);
        }
        if f.returning != 1 {
            return stops_at(q, true, clock);
        }
        clock = latest_at(clocks, q).max(clock);
        p = q;
    }
    stops_at(NONE, false, clock)
}

// The ends of the i-th record, if it is a return, by the frame at p.
pub fn rise_of(clocks: &[u64], frames: &[Frame], tape: &[u8], i: usize, p: u32) -> Rise
    requires { 8 * i + 8 ≤ length tape.now }
    ensures { kind_at tape.now i ≡ 2 → result ≡ rise (frame_at frames.now p).depth frames.now clocks.now p (latest clocks.now p) }
{
    if kind_at(tape, i) != 2 {
        return stops_at(0, false, 0);
    }
    rise(clocks, frames, p, latest_at(clocks, p))
}
