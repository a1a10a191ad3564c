// R-5: the links between siblings. A frame's eldest live child is known from the tallies; from there its children are followed, as many as there are, so
// that all in all no more links are followed than frames live.
ghost use Rattle.std.specs.Prelude.{◌≡◌, ◌&&◌, ◌<◌, eqb, length};
ghost use Rattle.frame_check.specs.Algorithm.{younger_sound, many_children, links_sound};

use super::tallies::{child_count, link_sum};
use frames::{Frame, NONE, frame_at};

// Main and an only child name no sibling. The parent's record is g.
pub fn younger_sound(f: Frame, g: Frame) -> bool
    ensures { result ≡ younger_sound f g }
{
    (f.younger == NONE) | ((f.depth != 0) & (1 < g.outstanding))
}

// Does a frame f with the word t of the tallies live, and has it two children or more?
fn many_children(f: Frame, t: u32) -> bool
    ensures { result ≡ many_children f t }
{
    (f.live == 1) & (1 < child_count(t))
}

// Is f a live child of the frame at q?
fn is_child(f: &Frame, q: u32) -> bool
    ensures { result ≡ (eqb f.now.live 1 && eqb f.now.parent q) }
{
    (f.live == 1) & (f.parent == q)
}

// Do the links chain the live children of the frame at q, from the eldest on, if one lives there and has two children or more? Its word of the tallies is t.
pub fn siblings_sound(frames: &[Frame], q: u32, t: u32) -> bool
    requires { q < length frames.now }
    ensures { result ≡ links_sound frames.now q t }
{
    // an only child has its own test
    if !many_children(frame_at(frames, q), t) {
        return true;
    }
    let mut c = link_sum(t).saturating_sub(1);
    for _ in 0..child_count(t) {
        if c as usize >= frames.len() {
            return false;
        }
        let f = &frames[c as usize];
        if !is_child(f, q) {
            return false;
        }
        c = f.younger;
    }
    c == NONE
}
