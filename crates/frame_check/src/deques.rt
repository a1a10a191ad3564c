// The deques: what each has to be by itself, and its frames.
ghost use Rattle.std.specs.Prelude.{◌≡◌, ℕ, ◌≤◌, ◌<◌};
ghost use Rattle.words.specs.Basics.{all};
ghost use Rattle.frames.specs.Widths.{max_workers, deque_places};
ghost use Rattle.frames.specs.Deques.{size};
ghost use Rattle.frame_check.specs.Algorithm.{zero_past, deque_fits, in_deque, on_deque, tally_deque, tally_deques, deque_sound};

use super::tallies::{DEQUE_STEP, Tallies, bump};
use frames::{DEQUE_PLACES, DEQUE_WORDS, Frame, MAX_WORKERS, frame_or_zero, place_at, size_at};

// The places past the first n are zero.
fn rest_zero(deques: &[u32; DEQUE_WORDS], w: u32, n: u32) -> bool
    requires worker { w < max_workers }
    requires within { n ≤ deque_places }
    ensures { result ≡ all deque_places (zero_past deques.now w n) }
{
    let mut sound = true;
    for k in n..DEQUE_PLACES {
        sound &= place_at(deques, w, k) == 0;
    }
    sound
}

// What deque w has to be whatever its frames are.
fn deque_fits(workers: u32, places: usize, deques: &[u32; DEQUE_WORDS], w: u32) -> bool
    requires worker { w < max_workers }
    requires few { places ≤ deque_places }
    ensures { result ≡ deque_fits workers places deques.now w }
{
    let n = size_at(deques, w);
    if n as usize > places {
        return false;
    }
    // most deques are empty, and a loop of a fixed length is the faster one
    if n == 0 {
        rest_zero(deques, w, 0)
    } else {
        (w < workers) & rest_zero(deques, w, n)
    }
}

// All of them; the table has so many places.
pub fn deques_fit(workers: u32, places: usize, deques: &[u32; DEQUE_WORDS]) -> bool
    requires { places ≤ deque_places }
    ensures { result ≡ all max_workers (deque_fits workers places deques.now) }
{
    let mut sound = true;
    for w in 0..MAX_WORKERS {
        sound &= deque_fits(workers, places, deques, w);
    }
    sound
}

// What the frame f at place p has to be, k places below the top of a deque of n frames: one outstanding child if there is a frame below, else none.
fn in_deque(places: usize, f: Frame, p: u32, above: u32, k: u32, n: u32) -> bool
    ensures { result ≡ in_deque places f p above k n }
{
    let below = u32::from(1 < n.saturating_sub(k));
    ((p as usize) < places)
        & (f.live == 1)
        & ((k == 0) | ((f.parent == above) & (f.outstanding == below)))
}

// Is the frame sound that stands k places below the top of deque w?
fn on_deque(deques: &[u32; DEQUE_WORDS], frames: &[Frame], w: u32, k: u32) -> bool
    requires worker { w < max_workers }
    requires within { k < deque_places }
    ensures { result ≡ on_deque deques.now frames.now w k }
{
    let p = place_at(deques, w, k);
    let above = place_at(deques, w, k.saturating_sub(1));
    let f = frame_or_zero(frames, p);
    in_deque(frames.len(), f, p, above, k, size_at(deques, w))
}

// Counts the frames of deque w; whether they are sound.
fn tally_deque(tallies: &mut Tallies, deques: &[u32; DEQUE_WORDS], frames: &[Frame], w: u32) -> bool
    requires worker { w < max_workers }
    requires within { size deques.now w ≤ deque_places }
    ensures tallied { tallies.new ≡ tally_deque deques.now w tallies.old }
    ensures sound { result ≡ deque_sound deques.now frames.now w }
{
    let mut sound = true;
    for k in 0..size_at(deques, w) {
        sound &= on_deque(deques, frames, w, k);
        bump(tallies, place_at(deques, w, k), DEQUE_STEP);
    }
    sound
}

// The same of all deques.
pub fn tally_deques(tallies: &mut Tallies, deques: &[u32; DEQUE_WORDS], frames: &[Frame]) -> bool
    requires { (w : ℕ) → w < max_workers → size deques.now w ≤ deque_places }
    ensures tallied { tallies.new ≡ tally_deques max_workers deques.now tallies.old }
    ensures sound { result ≡ all max_workers (deque_sound deques.now frames.now) }
{
    let mut sound = true;
    for w in 0..MAX_WORKERS {
        sound &= tally_deque(tallies, deques, frames, w);
    }
    sound
}
