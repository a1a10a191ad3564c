// A tape in turns: a record, whose step moves the clocks as its answer words say, and the reads, writes and folds after it.
ghost use Rattle.std.specs.Prelude.{◌≡◌, ℕ, suc, ◌+◌, ◌-◌, ◌*◌, ◌^◌, ◌≤◌, ◌<◌, length};
ghost use Rattle.frames.specs.Widths.{max_workers, deque_places, deque_words};
ghost use Rattle.frames.specs.Deques.{size, bottom};
ghost use Rattle.semantics.specs.Timing.{ended, timed_with};
ghost use Rattle.timing.specs.Turns.{RoomFor, timing, kind_at, worker_at, ticks_over, AllClocked};

use crate::Tally;
use crate::clocks::{begin_child, hear, pass_sync, tick};
use frames::{DEQUE_STRIDE, NONE};
use semantics::Rise;

// The kind of the i-th record.
pub fn kind_at(tape: &[u8], i: usize) -> u8
    requires { 8 * i + 8 ≤ length tape.now }
    ensures { result ≡ kind_at tape.now i }
{
    tape[8 * i]
}

// The place of the frame that the i-th record's worker executes, whatever worker that is.
#[tactic(auto, unfolding(frames::specs::Deques::bottom, frames::specs::Deques::place, frames::specs::Deques::size))]
pub fn bottom_of(deques: &[u32], tape: &[u8], i: usize) -> u32
    requires { 8 * i + 8 ≤ length tape.now }
    ensures { result ≡ bottom deques.now (worker_at tape.now i) }
{
    let at = DEQUE_STRIDE * (tape[8 * i + 1] as usize);
    let n = words::at_or(deques, at, 0) as usize;
    words::at_or(deques, at + n.max(1), 0)
}

// The same of a worker that has a frame.
#[tactic(auto, unfolding(frames::specs::Deques::bottom, frames::specs::Deques::place, frames::specs::Deques::size))]
fn bottom_in(deques: &[u32], w: u8) -> u32
    requires { (length deques.now ≡ deque_words) × (w < max_workers) × (0 < size deques.now w) × (size deques.now w ≤ deque_places) }
    ensures { result ≡ bottom deques.now w }
{
    let at = DEQUE_STRIDE * (w as usize);
    let deque = &deques[at..];
    deque[deque[0] as usize]
}

// The first record from `from` on that is no read, write or fold (nor of a kind that there is not).
pub fn turn_end(tape: &[u8], from: usize, records: usize) -> usize
    requires { (from ≤ records) × (8 * records ≤ length tape.now) }
    ensures { (from ≤ result) × (result ≤ records) × ((j : ℕ) → from ≤ j → j < result → 5 ≤ kind_at tape.now j) }
{
    for to in from..records {
        if kind_at(tape, to) < 5 {
            return to;
        }
    }
    records
}

// A return's ends.
fn end_clocks(clocks: &mut [u64], r: Rise, t: Tally) -> Tally
    requires { RoomFor 1 clocks.old × (r.clock + 1 < 2 ^ 64) }
    ensures { timing clocks.new result.work result.span ≡ ended (timing clocks.old t.work t.span) r }
{
    if r.place == NONE {
        return Tally { span: r.clock, ..t };
    }
    hear(clocks, r.place, r.clock);
    if r.passes {
        pass_sync(clocks, r.place);
    }
    t
}

// What a step with these answer words, of the frame at p, does to the clocks.
#[tactic(auto, unfolding(semantics::specs::Timing::timed_with))]
pub fn time_first(
    clocks: &mut [u64],
    first: u32,
    second: u32,
    p: u32,
    g: u32,
    r: Rise,
    t: Tally,
) -> Tally
    requires { RoomFor 1 clocks.old × (t.work + 1 < 2 ^ 64) × (105 ≤ first → suc (2 * p) < length clocks.old) × (first ≡ 102 → r.clock + 1 < 2 ^ 64) }
    ensures { timing clocks.new result.work result.span ≡ timed_with (first, second) p g r (timing clocks.old t.work t.span) }
{
    let more = t.costing();
    match first {
        105.. => {
            tick(clocks, p);
            more
        }
        101 => {
            begin_child(clocks, p, g);
            more
        }
        102 if second == 4 => t,
        102 => end_clocks(clocks, r, t),
        104 => {
            if second == 0 {
                pass_sync(clocks, p);
            }
            more
        }
        _ => t,
    }
}

// The reads, writes and folds from the record `from` up to `to`, which are done: their deques are as they were. The work with theirs.
pub fn time_data(
    clocks: &mut [u64],
    deques: &[u32],
    tape: &[u8],
    answers: &[u32],
    from: usize,
    to: usize,
    work: u64,
) -> u64
    requires { (from ≤ to) × (8 * to ≤ length tape.now) × (2 * to ≤ length answers.now) × RoomFor (to - from) clocks.old × (work + (to - from) < 2 ^ 64)
        × AllClocked deques.now clocks.old tape.now answers.now from to }
    ensures { (span : ℕ) → timing clocks.new result span ≡ ticks_over deques.now tape.now answers.now from (to - from) (timing clocks.old work span) }
{
    let mut total = work;
    for i in from..to {
        if answers[2 * i] >= 100 {
            tick(clocks, bottom_in(deques, tape[8 * i + 1]));
            total += 1;
        }
    }
    total
}
