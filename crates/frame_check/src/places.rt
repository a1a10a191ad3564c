// The frame places: what each has to be, given its tallies, and the free chain.
ghost use Rattle.std.specs.Prelude.{◌≡◌, ◌≤◌, ◌<◌, length};
ghost use Rattle.words.specs.Basics.{all};
ghost use Rattle.frames.specs.Widths.{max_places};
ghost use Rattle.soundness.specs.Soundness.{view_zero};
ghost use Rattle.frame_check.specs.Algorithm.{parent_sound, placed_sound, returning_sound, live_sound, record_sound, free_sound, live_end, word_sound, place_tallied, chain_from};

use super::links::{siblings_sound, younger_sound};
use super::tallies::{Tallies, child_count, deque_count};
use frames::{Frame, NONE, frame_at, frame_or_zero};
use reducers::View;

// Main has no parent, any other live frame f a live one, one shallower, whose record is g.
fn parent_sound(places: usize, f: Frame, g: Frame) -> bool
    ensures { result ≡ parent_sound places f g }
{
    if f.depth == 0 {
        return f.parent == NONE;
    }
    ((f.parent as usize) < places) & (g.live == 1) & (f.depth - 1 == g.depth)
}

// A live frame with so many children is on one place of the deques, or on none and waits.
fn placed_sound(f: Frame, children: u32, seen: u32) -> bool
    ensures { result ≡ placed_sound f children seen }
{
    ((seen == 1) & (f.suspended == 0)) | ((seen == 0) & ((f.suspended == 1) & (0 < children)))
}

// R-3, its word of a live frame: 1 if it waits in its return, and then it is suspended, else 0.
fn returning_sound(f: Frame) -> bool
    ensures { result ≡ returning_sound f }
{
    (f.returning == 0) | ((f.returning == 1) & (f.suspended == 1))
}

fn live_sound(places: usize, f: Frame, g: Frame, children: u32, seen: u32) -> bool
    ensures { result ≡ live_sound places f g children seen }
{
    (f.outstanding == children)
        & parent_sound(places, f, g)
        & placed_sound(f, children, seen)
        & returning_sound(f)
        & younger_sound(f, g)
}

// The record f with its parent's record g and its word t of the tallies, if a frame lives there.
fn record_sound(places: usize, f: Frame, g: Frame, t: u32) -> bool
    ensures { result ≡ record_sound places f g t }
{
    f.live != 1 || live_sound(places, f, g, child_count(t), deque_count(t))
}

// Is place p sound, with its word t of the tallies?
fn place_sound(frames: &[Frame], p: u32, t: u32) -> bool
    requires { p < length frames.now }
    ensures { result ≡ word_sound frames.now p t }
{
    let f = frame_at(frames, p);
    let g = frame_or_zero(frames, f.parent);
    siblings_sound(frames, p, t) & record_sound(frames.len(), f, g, t)
}

// The places before end, from which on no frame lives.
pub fn places_sound(frames: &[Frame], tallies: &Tallies, end: u32) -> bool
    requires few { length frames.now ≤ max_places }
    requires live { end ≡ live_end frames.now }
    ensures { result ≡ all (length frames.now) (place_tallied frames.now tallies.now) }
{
    let mut sound = true;
    for p in 0..end {
        sound &= place_sound(frames, p, tallies[p as usize]);
    }
    sound
}

fn view_zero(v: View) -> bool
    ensures { result ≡ view_zero v }
{
    (v.sum.value == 0) & (v.min.value == 0) & (v.affine.multiplier == 0) & (v.affine.addend == 0)
}

// A free place: zero but for the link.
fn free_sound(f: &Frame) -> bool
    ensures { result ≡ free_sound f.now }
{
    (f.live == 0)
        & (f.depth == 0)
        & (f.outstanding == 0)
        & (f.suspended == 0)
        & (f.root == 0)
        & (f.returning == 0)
        & view_zero(f.view)
        & (f.younger == 0)
}

// Has the chain from place first on just so many places, all of them free? No place is on such a chain twice: it would not end.
pub fn follow_free(frames: &[Frame], count: u32, first: u32) -> bool
    ensures { result ≡ chain_from frames.now count first }
{
    let mut p = first;
    for _ in 0..count {
        if p as usize >= frames.len() {
            return false;
        }
        let f = &frames[p as usize];
        if !free_sound(f) {
            return false;
        }
        p = f.parent;
    }
    p == NONE
}
