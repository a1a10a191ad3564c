// A run: what its steps act on, and renew in place. Its methods are the steps (kinds.rt, returns.rt), their refusals (refusals.rt), the records of a tape (records.rt) and the turns of a report (turns.rt).
ghost use Rattle.std.specs.Prelude.{◌≡◌, ◌<◌, length};
ghost use Rattle.frames.specs.Frames.{frame_at};
ghost use Rattle.semantics.specs.Entries.{head_of};

use frames::{DEQUE_WORDS, Frame, frame_at};
use image::NUMBER_COUNT;
use packed::{Free, Pool};
use semantics::Head;
use sizes::height_of;
use soundness::Numbers;

#[derive(Drop)]
pub struct Run<'a, 'p> {
    // the numbers, with what is free now
    pub head: Head,
    // the lent words of the numbers, of which a run stores the totals alone
    pub numbers: &'a mut [u32; NUMBER_COUNT],
    pub deques: &'a mut [u32; DEQUE_WORDS],
    pub frames: &'a mut [Frame],
    pub pool: &'a mut Pool<'p>,
}

// With so many free nodes.
pub fn head_of(numbers: Numbers, free_count: u32) -> Head
    ensures { result ≡ head_of numbers free_count }
{
    let height = height_of(numbers.splitters);
    Head {
        numbers,
        height,
        free_count,
    }
}

impl Run<'_, '_> {
    // The frame at place p.
    pub fn frame(&self, p: u32) -> Frame
        requires { p < length self.now.frames.now }
        ensures { result ≡ frame_at self.now.frames.now p }
    {
        frame_at(self.frames, p)
    }

    // The free list of the pool.
    pub fn free_nodes(&self) -> Free
        ensures { (result.first ≡ self.now.head.numbers.free_node) × (result.count ≡ self.now.head.free_count) }
    {
        Free {
            first: self.head.numbers.free_node,
            count: self.head.free_count,
        }
    }
}
