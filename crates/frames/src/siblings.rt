// R-5: the links between siblings and the next frame in the order of the live frames. What is searched for in the whole table is only so where a frame has
// live siblings. The links are any words here: a place past the table is no frame.
ghost use Rattle.std.specs.Prelude.{◌≡◌, cond, ◌≢◌, ℕ, ◌≤◌, ◌<◌, eqb, length, get_or, set, replicate};
ghost use Rattle.words.specs.Basics.{none, plus, minus};
ghost use Rattle.frames.specs.Widths.{max_places};
ghost use Rattle.frames.specs.Frames.{frame_at};
ghost use Rattle.frames.specs.Siblings.{relink, eldest, first_from, next_after, join_at};
ghost use Rattle.frames.specs.Ranges.{EndsIn};

use super::table::{frame_at, frame_or_zero, put_frame};
use super::{Frame, MAX_PLACES, NONE};
use reducers::View;

// The first live child of q that names x as its next younger sibling names y instead. In a sound state there is one at most.
#[tactic(auto, using(crate::proofs::Ways::relinking))]
pub fn relink(frames: &mut [Frame], q: u32, x: u32, y: u32)
    requires { length frames.old ≤ max_places }
    ensures { frames.new ≡ relink frames.old q x y }
{
    for c in 0..frames.len() as u32 {
        let f = frame_at(frames, c);
        if f.child_names(q, x) {
            put_frame(frames, c, f.with_younger(y));
            return;
        }
    }
}

// A word for each place that a table may have.
type Eldests = [u32; PLACES];

const PLACES: usize = MAX_PLACES as usize;

// If a frame lives in f, the record at place c, its place less the one that it names is added to the word of its parent's place, if there is one.
fn add_to_eldest(eldests: &mut Eldests, c: u32, f: Frame)
    ensures { eldests.new ≡ cond (eqb f.live 1) (set eldests.old f.parent (minus (plus (get_or eldests.old f.parent 0) c) f.younger)) eldests.old }
{
    let q = f.parent as usize;
    if f.live == 1 && q < PLACES {
        eldests[q] = eldests[q].wrapping_add(c).wrapping_sub(f.younger);
    }
}

// The eldest live child of every place, the one that none of them names; none before.
#[tactic(auto, using(crate::proofs::Ways::summed_begin, crate::proofs::Ways::summed_turn))]
fn eldest_of_all(frames: &[Frame], eldests: &mut Eldests)
    requires { (length frames.now ≤ max_places) × (eldests.old ≡ replicate max_places none) }
    ensures { (q : ℕ) → q < max_places → get_or eldests.new q 0 ≡ eldest frames.now q }
{
    for c in 0..frames.len() as u32 {
        add_to_eldest(eldests, c, frame_at(frames, c));
    }
}

// The first in the order of the frame at q and all below it, by the eldest live child of every place.
#[tactic(auto, using(crate::proofs::Ways::first_found, crate::proofs::Ways::first_end, crate::proofs::Ways::has_children))]
fn first_by(frames: &[Frame], eldests: &Eldests, q: u32) -> u32
    requires { (length frames.now ≤ max_places) × ((p : ℕ) → p < max_places → get_or eldests.now p 0 ≡ eldest frames.now p) }
    ensures { result ≡ first_from (length frames.now) frames.now q }
{
    let mut p = q;
    for _ in 0..frames.len() {
        if frame_or_zero(frames, p).outstanding == 0 {
            return p;
        }
        p = eldests[p as usize];
    }
    p
}

// The same by itself: one pass over the table, then the way down, so that it is linear in the places.
fn first_from(frames: &[Frame], q: u32) -> u32
    requires { length frames.now ≤ max_places }
    ensures { result ≡ first_from (length frames.now) frames.now q }
{
    let mut eldests = [NONE; PLACES];
    eldest_of_all(frames, &mut eldests);
    first_by(frames, &eldests, q)
}

// The next one in the order after the frame at place p, whose parent at place q has other live children. The table is looked through only where the
// next younger sibling has a live child.
#[tactic(auto, using(crate::proofs::Ways::sibling_after))]
pub fn next_after(frames: &[Frame], p: u32, q: u32) -> u32
    requires { EndsIn frames.now p q × (length frames.now ≤ max_places) × ((frame_at frames.now q).outstanding ≢ 1) }
    ensures { result ≡ next_after frames.now p }
{
    let f = frame_at(frames, p);
    let y = f.younger;
    if y == NONE {
        return q;
    }
    if frame_or_zero(frames, y).outstanding == 0 {
        return y;
    }
    first_from(frames, y)
}

// A view joins on the left of that of the frame at place n, if it is a place; else nothing is stored.
#[tactic(auto, using(crate::proofs::Theory::Records::set_past))]
pub fn join_if_place(frames: &mut [Frame], n: u32, view: View)
    ensures { frames.new ≡ join_at frames.old n view }
{
    if (n as usize) < frames.len() {
        put_frame(frames, n, frame_at(frames, n).joined(view));
    }
}
