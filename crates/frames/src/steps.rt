// What a spawn, a return, a steal, a sync and a fold do to the deques and the frame table. That the step is not refused is the caller's to see to.
ghost use Rattle.std.specs.Prelude.{◌≡◌, ◌≢◌, List, ℕ, ◌≤◌, ◌<◌, length};
ghost use Rattle.words.specs.Basics.{none};
ghost use Rattle.reducers.specs.Reducers.{fold_view};
ghost use Rattle.frames.specs.declared.Frame.{Frame};
ghost use Rattle.frames.specs.Widths.{max_workers, max_places, deque_places};
ghost use Rattle.frames.specs.Frames.{frame_at, set_frame, with_view};
ghost use Rattle.frames.specs.Deques.{size};
ghost use Rattle.frames.specs.Steps.{link_child, spawn, end_frame, steal};
ghost use Rattle.frames.specs.Promises.{table, Waits, GoesOn, IsSync};
ghost use Rattle.frames.specs.Ranges.{Acts, EndsIn};

use super::deques::{pop_off, push_on, top_at, top_off};
use super::siblings::{join_if_place, next_after, relink};
use super::table::{frame_at, lose_child, put_frame};
use super::{DEQUE_WORDS, Frame, NONE, Returned, Synced};

// The frame at place p has so many live children: the youngest of them, if there is one, names the new one, at place g, as its next younger sibling.
fn link_child(frames: &mut [Frame], p: u32, g: u32, children: u32)
    requires { (length frames.old ≤ max_places) × (children ≡ (frame_at frames.old p).outstanding) }
    ensures { frames.new ≡ link_child frames.old p g }
{
    if children != 0 {
        relink(frames, p, NONE, g);
    }
}

// A child of worker w's bottom frame, the n-th, which is f at place p, in the first free place, goes to the bottom of the same deque. Gives the first
// free place.
#[tactic(auto, using(crate::proofs::Ways::spawned))]
pub fn spawn_frame(
    deques: &mut [u32; DEQUE_WORDS],
    frames: &mut [Frame],
    free: u32,
    w: u32,
    n: u32,
    p: u32,
    f: Frame,
) -> u32
    requires { Acts deques.old frames.old w n p f × (n < deque_places) × (length frames.old ≤ max_places) × (free < length frames.old) }
    ensures { table deques.new frames.new result ≡ spawn (table deques.old frames.old free) w }
{
    let next = frame_at(frames, free);
    link_child(frames, p, free, f.outstanding);
    let g = frame_at(frames, p);
    put_frame(frames, p, g.after_spawn());
    put_frame(frames, free, Frame::child_of(f, p));
    push_on(deques, w, n, free);
    next.parent
}

// The frame at place p, whose parent at place q has other live children, ends. The next one in the order is looked for before any record is read, so that
// none is held meanwhile. It stays a function of its own, so that the array of first_from lies on no other's stack.
#[inline(never)]
#[tactic(auto, using(crate::proofs::Ways::parent_in, crate::proofs::Ways::ended_sibling))]
fn end_sibling(frames: &mut [Frame], free: u32, p: u32, q: u32)
    requires { EndsIn frames.old p q × (length frames.old ≤ max_places) × (q ≢ none) × ((frame_at frames.old q).outstanding ≢ 1) }
    ensures { frames.new ≡ end_frame frames.old free p }
{
    let next = next_after(frames, p, q);
    let f = frame_at(frames, p);
    put_frame(frames, p, Frame::free(free));
    lose_child(frames, q);
    relink(frames, q, p, f.younger);
    join_if_place(frames, next, f.view);
}

// The frame at place p, the only live child of the one at place q, ends.
#[tactic(auto, using(crate::proofs::Ways::parent_in, crate::proofs::Ways::ended_alone))]
fn end_alone(frames: &mut [Frame], free: u32, p: u32, q: u32)
    requires { EndsIn frames.old p q × (q ≢ none) × ((frame_at frames.old q).outstanding ≡ 1) }
    ensures { frames.new ≡ end_frame frames.old free p }
{
    let f = frame_at(frames, p);
    let g = frame_at(frames, q);
    put_frame(frames, q, g.without_child().joined(f.view));
    put_frame(frames, p, Frame::free(free));
}

// The frame at place p, whose parent is at place q, ends: its place is the first free one, its parent has a live child less, and its view joins the next
// one's.
pub fn end_below(frames: &mut [Frame], free: u32, p: u32, q: u32)
    requires { EndsIn frames.old p q × (length frames.old ≤ max_places) × (q ≢ none) }
    ensures { frames.new ≡ end_frame frames.old free p }
{
    if frame_at(frames, q).outstanding == 1 {
        end_alone(frames, free, p, q);
    } else {
        end_sibling(frames, free, p, q);
    }
}

// The same, where the frame may be Main, and q none.
#[tactic(auto, using(crate::proofs::Ways::ended_main))]
pub fn end_frame(frames: &mut [Frame], free: u32, p: u32, q: u32)
    requires { EndsIn frames.old p q × (length frames.old ≤ max_places) }
    ensures { frames.new ≡ end_frame frames.old free p }
{
    if q == NONE {
        put_frame(frames, p, Frame::free(free));
    } else {
        end_below(frames, free, p, q);
    }
}

// The value v is folded into reducer r of the view of the frame at place p; a number that names no reducer folds nothing.
#[tactic(auto, unfolding(crate::specs::Frames::frame_at, crate::specs::Frames::set_frame))]
pub fn fold_at(frames: &mut [Frame], p: u32, r: u32, v: u32)
    requires { p < length frames.old }
    ensures { frames.new ≡ set_frame frames.old p (with_view (frame_at frames.old p) (fold_view (frame_at frames.old p).view r v)) }
{
    frames[p as usize].view.fold_in(r, v);
}

// The frame at place q resumes on worker w, whose deque is empty, or the worker is idle.
#[tactic(auto, using(crate::proofs::Ways::stays_idle, crate::proofs::Ways::resumed))]
pub fn go_on(deques: &mut [u32; DEQUE_WORDS], frames: &mut [Frame], w: u32, q: u32) -> Returned
    requires { (w < max_workers) × (q < length frames.old) × (size deques.old w ≡ 0) }
    ensures { GoesOn deques.old frames.old w q deques.new frames.new result }
{
    let g = frame_at(frames, q);
    if !g.resumes() {
        return Returned::Idle;
    }
    put_frame(frames, q, g.with_suspended(0));
    push_on(deques, w, 0, q);
    Returned::Resumed
}

// Worker w's bottom frame, the n-th, which is at place p, waits in its return.
pub fn wait_frame(deques: &mut [u32; DEQUE_WORDS], frames: &mut [Frame], w: u32, n: u32, p: u32)
    requires { Acts deques.old frames.old w n p (frame_at frames.old p) }
    ensures { Waits deques.old frames.old w deques.new frames.new }
{
    let f = frame_at(frames, p);
    put_frame(frames, p, f.as_returning());
    pop_off(deques, w, n);
}

// Worker w takes the top frame of worker v.
#[tactic(auto, using(crate::proofs::Theory::Sizes::thief_idle), unfolding(crate::specs::Steps::steal))]
pub fn steal_frame(deques: &mut [u32; DEQUE_WORDS], w: u32, v: u32)
    requires { (w < max_workers) × (v < max_workers) × (size deques.old w ≡ 0) × (2 ≤ size deques.old v) × (size deques.old v ≤ deque_places) }
    ensures { (fs : List Frame) (free : ℕ) → table deques.new fs free ≡ steal (table deques.old fs free) w v }
{
    let p = top_at(deques, v);
    top_off(deques, v);
    push_on(deques, w, 0, p);
}

// Worker w's bottom frame, which is f at place p, passes, or waits for its children.
#[tactic(auto, using(crate::proofs::Ways::passes, crate::proofs::Ways::waits))]
pub fn sync_frame(
    deques: &mut [u32; DEQUE_WORDS],
    frames: &mut [Frame],
    w: u32,
    n: u32,
    p: u32,
    f: Frame,
) -> Synced
    requires { Acts deques.old frames.old w n p f }
    ensures { IsSync deques.old frames.old w deques.new frames.new result }
{
    if f.outstanding == 0 {
        return Synced::Passed;
    }
    put_frame(frames, p, f.with_suspended(1));
    pop_off(deques, w, n);
    Synced::Suspended
}
