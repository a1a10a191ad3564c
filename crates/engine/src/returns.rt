// A return: the bottom frame waits, or it ends, and upward from it the frames that waited in their returns for it alone.
ghost use Rattle.std.specs.Prelude.{◌≡◌, ◌≢◌, ◌≤◌, length};
ghost use Rattle.words.specs.Basics.{none};
ghost use Rattle.frames.specs.Frames.{frame_at};
ghost use Rattle.frames.specs.Widths.{max_places};
ghost use Rattle.model.specs.declared.Step.TheVariants.{Return};
ghost use Rattle.semantics.specs.Core.{step_on, returned, end_at};
ghost use Rattle.semantics.specs.Ranges.{EndsAt};
ghost use Rattle.engine.specs.Run.{core_in, stepped, ReadyRun, SameRun, EndsFrom, ends_from};
ghost use Rattle.soundness.specs.Layout.{two_words};

use crate::numbers::end_totals;
use crate::run::Run;
use frames::{NONE, Returned, end_below, end_frame, go_on, pop_off, wait_frame};
use semantics::{Done, Refusal};

impl Run<'_, '_> {
    // The frame at place p ends: its tree is released, and its place is the first free one; if it is Main, its view becomes the totals. Gives its parent's place.
    fn end_at(&mut self, p: u32) -> u32
        requires { (self.old.pool.now.nodes ≡ self.old.head.numbers.nodes) × EndsAt (core_in self.old) p × (length self.old.frames.now ≤ max_places) }
        ensures same { SameRun self.old self.new }
        ensures ends { core_in self.new ≡ end_at two_words (core_in self.old) p }
        ensures parent { result ≡ (frame_at self.old.frames.now p).parent }
    {
        let head = self.head;
        let free = self.free_nodes();
        let root = self.frame(p).root;
        let freed = self.pool.release(free, root, head.height);
        let f = self.frame(p);
        end_totals(self.numbers, f.parent, f.view);
        end_frame(self.frames, head.numbers.free_place, p, f.parent);
        self.head.numbers.free_node = freed.first;
        self.head.numbers.free_place = p;
        self.head.free_count = freed.count;
        f.parent
    }

    // The same for a frame that is not Main; its tree is released after its end, so that nothing is kept over the one for the other.
    fn end_child_at(&mut self, p: u32)
        requires { (self.old.pool.now.nodes ≡ self.old.head.numbers.nodes) × EndsAt (core_in self.old) p × (length self.old.frames.now ≤ max_places)
            × ((frame_at self.old.frames.now p).parent ≢ none) }
        ensures same { SameRun self.old self.new }
        ensures ends { core_in self.new ≡ end_at two_words (core_in self.old) p }
    {
        let head = self.head;
        let free = self.free_nodes();
        let f = self.frame(p);
        end_below(self.frames, head.numbers.free_place, p, f.parent);
        let freed = self.pool.release(free, f.root, head.height);
        self.head.numbers.free_node = freed.first;
        self.head.numbers.free_place = p;
        self.head.free_count = freed.count;
    }

    // The frame at place `first` ends; worker w has no frame left, so its parent may end too, and so on upward. Each turn is nearer to Main.
    fn end_upward(&mut self, w: u32, first: u32) -> Returned
        requires { (self.old.pool.now.nodes ≡ self.old.head.numbers.nodes) × EndsFrom (core_in self.old) w 1 first }
        ensures same { SameRun self.old self.new }
        ensures ends { returned (core_in self.new) result ≡ ends_from (core_in self.old) w first }
    {
        let mut p = first;
        loop {
            let parent = self.end_at(p);
            if parent == NONE {
                return Returned::Finished;
            }
            let f = self.frame(parent);
            if !f.ends_too() {
                return go_on(self.deques, self.frames, w, parent);
            }
            p = parent;
        }
    }

    // The frame at place p, worker w's n-th, which has left its deque, ends; if that was the only one there, its parent may end too.
    fn end_bottom(&mut self, w: u32, n: u32, p: u32) -> Returned
        requires { (self.old.pool.now.nodes ≡ self.old.head.numbers.nodes) × EndsFrom (core_in self.old) w n p }
        ensures same { SameRun self.old self.new }
        ensures ends { returned (core_in self.new) result ≡ ends_from (core_in self.old) w p }
    {
        if n == 1 {
            return self.end_upward(w, p);
        }
        self.end_child_at(p);
        Returned::Continued
    }

    // The worker's bottom frame waits for its children, or ends.
    pub fn return_frame(&mut self, w: u32) -> Result<Done, Refusal>
        requires { ReadyRun self.old }
        ensures same { SameRun self.old self.new }
        ensures steps { stepped self.new result ≡ step_on two_words (core_in self.old) (Return w) }
    {
        let a = self.acting(w)?;
        if self.frame(a.place).outstanding != 0 {
            wait_frame(self.deques, self.frames, w, a.count, a.place);
            return Ok(Done::Ended(Returned::Waiting));
        }
        pop_off(self.deques, w, a.count);
        let outcome = self.end_bottom(w, a.count, a.place);
        Ok(Done::Ended(outcome))
    }
}
