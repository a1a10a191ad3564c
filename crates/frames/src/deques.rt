// The deques: for each worker its length, then places for its frames from the top.
ghost use Rattle.std.specs.Prelude.{◌≡◌, ◌≤◌, ◌<◌, replicate};
ghost use Rattle.frames.specs.Widths.{max_workers, deque_places, deque_words};
ghost use Rattle.frames.specs.Deques.{size, place, bottom, top, push, pop, drop_top, init_deques};

use super::{DEQUE_STRIDE, DEQUE_WORDS};

// How many frames worker w has.
#[tactic(auto, unfolding(crate::specs::Deques::size))]
pub fn size_at(deques: &[u32; DEQUE_WORDS], w: u32) -> u32
    requires { w < max_workers }
    ensures { result ≡ size deques.now w }
{
    deques[DEQUE_STRIDE * w as usize]
}

// The frame that is k places below worker w's top.
#[tactic(auto, unfolding(crate::specs::Deques::place))]
pub fn place_at(deques: &[u32; DEQUE_WORDS], w: u32, k: u32) -> u32
    requires { (w < max_workers) × (k < deque_places) }
    ensures { result ≡ place deques.now w k }
{
    deques[DEQUE_STRIDE * w as usize + (1 + k as usize)]
}

// The frame that a thief takes.
#[tactic(auto, unfolding(crate::specs::Deques::top))]
pub fn top_at(deques: &[u32; DEQUE_WORDS], w: u32) -> u32
    requires { w < max_workers }
    ensures { result ≡ top deques.now w }
{
    place_at(deques, w, 0)
}

// The place of the frame that worker w executes, which has n of them.
#[tactic(auto, using(crate::proofs::Theory::Sizes::bottom_is))]
pub fn acting_place(deques: &[u32; DEQUE_WORDS], w: u32, n: u32) -> u32
    requires { (w < max_workers) × (n ≡ size deques.now w) × (0 < n) × (n ≤ deque_places) }
    ensures { result ≡ bottom deques.now w }
{
    deques[DEQUE_STRIDE * w as usize + n as usize]
}

// A frame more at the bottom of worker w's deque, which has n.
#[tactic(auto, unfolding(crate::specs::Deques::push, crate::specs::Deques::set_size, crate::specs::Deques::set_place))]
pub fn push_on(deques: &mut [u32; DEQUE_WORDS], w: u32, n: u32, p: u32)
    requires { (w < max_workers) × (n ≡ size deques.old w) × (n < deque_places) }
    ensures { deques.new ≡ push deques.old w p }
{
    let at = DEQUE_STRIDE * w as usize;
    deques[at + (1 + n as usize)] = p;
    deques[at] = n.wrapping_add(1);
}

// The bottom frame taken off worker w's deque, which has n.
#[tactic(auto, unfolding(crate::specs::Deques::pop, crate::specs::Deques::set_size, crate::specs::Deques::set_place))]
pub fn pop_off(deques: &mut [u32; DEQUE_WORDS], w: u32, n: u32)
    requires { (w < max_workers) × (n ≡ size deques.old w) × (0 < n) × (n ≤ deque_places) }
    ensures { deques.new ≡ pop deques.old w }
{
    let at = DEQUE_STRIDE * w as usize;
    deques[at + n as usize] = 0;
    deques[at] = n - 1;
}

// The top frame taken off: it sinks to the bottom, one place at a time, and is taken off there.
#[tactic(auto, using(crate::proofs::Loops::sunk))]
pub fn top_off(deques: &mut [u32; DEQUE_WORDS], w: u32)
    requires { (w < max_workers) × (0 < size deques.old w) × (size deques.old w ≤ deque_places) }
    ensures { deques.new ≡ drop_top deques.old w }
{
    let n = size_at(deques, w);
    let at = DEQUE_STRIDE * w as usize;
    for k in 1..n as usize {
        deques.swap(at + k, at + (k + 1));
    }
    pop_off(deques, w, n);
}

// The start, whatever the words held: Main, in place 0, is alone on worker 0's deque.
pub fn init_deques(deques: &mut [u32; DEQUE_WORDS])
    ensures { deques.new ≡ init_deques (replicate deque_words 0) }
{
    deques.fill(0);
    push_on(deques, 0, 0, 0);
}
