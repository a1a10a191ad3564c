// The lent frame table: the record at a place, read and stored word by word, and a record's count of live children by itself. (A record that is copied
// whole has no alignment in the compiled module: where loads must be aligned each byte of it is loaded alone, and kept alone on the stack.) What
// works on single records is in records.rt.
ghost use Rattle.std.specs.Prelude.{◌≡◌, ◌<◌, length};
ghost use Rattle.frames.specs.Frames.{frame_at, set_frame, without_child};

use super::Frame;
use reducers::{Affine, Min, Sum, View};

// The record at place p.
#[tactic(auto, unfolding(crate::specs::Frames::frame_at))]
pub fn frame_at(frames: &[Frame], p: u32) -> Frame
    requires { p < length frames.now }
    ensures { result ≡ frame_at frames.now p }
{
    let i = p as usize;
    let live = frames[i].live;
    let parent = frames[i].parent;
    let depth = frames[i].depth;
    let outstanding = frames[i].outstanding;
    let suspended = frames[i].suspended;
    let root = frames[i].root;
    let returning = frames[i].returning;
    let sum = frames[i].view.sum.value;
    let min = frames[i].view.min.value;
    let multiplier = frames[i].view.affine.multiplier;
    let addend = frames[i].view.affine.addend;
    let younger = frames[i].younger;
    Frame {
        live,
        parent,
        depth,
        outstanding,
        suspended,
        root,
        returning,
        view: View {
            sum: Sum { value: sum },
            min: Min { value: min },
            affine: Affine { multiplier, addend },
        },
        younger,
    }
}

// Stores the record at place p.
pub fn put_frame(frames: &mut [Frame], p: u32, f: Frame)
    requires { p < length frames.old }
    ensures { frames.new ≡ set_frame frames.old p f }
{
    let i = p as usize;
    frames[i].live = f.live;
    frames[i].parent = f.parent;
    frames[i].depth = f.depth;
    frames[i].outstanding = f.outstanding;
    frames[i].suspended = f.suspended;
    frames[i].root = f.root;
    frames[i].returning = f.returning;
    frames[i].view.sum.value = f.view.sum.value;
    frames[i].view.min.value = f.view.min.value;
    frames[i].view.affine.multiplier = f.view.affine.multiplier;
    frames[i].view.affine.addend = f.view.affine.addend;
    frames[i].younger = f.younger;
}

// The frame at place p has a live child less. Only that word is stored.
#[tactic(auto, unfolding(crate::specs::Frames::frame_at, crate::specs::Frames::set_frame))]
pub fn lose_child(frames: &mut [Frame], p: u32)
    requires { p < length frames.old }
    ensures { frames.new ≡ set_frame frames.old p (without_child (frame_at frames.old p)) }
{
    let i = p as usize;
    frames[i].outstanding = frames[i].outstanding.saturating_sub(1);
}

// The record at place p, and zeros where p is no place.
#[tactic(auto, using(crate::proofs::Theory::Records::frame_past))]
pub fn frame_or_zero(frames: &[Frame], p: u32) -> Frame
    ensures { result ≡ frame_at frames.now p }
{
    if (p as usize) < frames.len() {
        frame_at(frames, p)
    } else {
        Frame::free(0)
    }
}
