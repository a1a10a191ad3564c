// The seven kinds of steps, but for a return (returns.rt): each is refused, and changes nothing, or acts. The core is ready (it is sound), so that reads and stores
// test no index.
ghost use Rattle.std.specs.Prelude.{◌≡◌};
ghost use Rattle.model.specs.declared.Step.TheVariants.{Spawn, Steal, Sync, Read, Write, Fold};
ghost use Rattle.semantics.specs.Core.{step_on};
ghost use Rattle.engine.specs.Run.{core_in, stepped, ReadyRun, SameRun};
ghost use Rattle.soundness.specs.Layout.{two_words};

use crate::run::Run;
use frames::{NONE, fold_at, put_frame, spawn_frame, steal_frame, sync_frame, top_at};
use packed::FirstShared;
use semantics::{Done, Refusal};

// How many reducers there are.
const REDUCERS: u32 = 3;

impl Run<'_, '_> {
    // A child of the worker's bottom frame, in the first free place, goes to the bottom of its deque.
    pub fn spawn(&mut self, w: u32) -> Result<Done, Refusal>
        requires { ReadyRun self.old }
        ensures same { SameRun self.old self.new }
        ensures steps { stepped self.new result ≡ step_on two_words (core_in self.old) (Spawn w) }
    {
        let a = self.acting(w)?;
        let free = self.head.numbers.free_place;
        if free == NONE {
            return Err(Refusal::FramesFull);
        }
        let f = self.frame(a.place);
        self.pool.retain(f.root);
        self.head.numbers.free_place = spawn_frame(
            self.deques,
            self.frames,
            free,
            w,
            a.count,
            a.place,
            f,
        );
        Ok(Done::Spawned(f.depth.wrapping_add(1)))
    }

    // The worker's bottom frame passes, or waits for its children.
    pub fn sync(&mut self, w: u32) -> Result<Done, Refusal>
        requires { ReadyRun self.old }
        ensures same { SameRun self.old self.new }
        ensures steps { stepped self.new result ≡ step_on two_words (core_in self.old) (Sync w) }
    {
        let a = self.acting(w)?;
        let f = self.frame(a.place);
        let outcome = sync_frame(self.deques, self.frames, w, a.count, a.place, f);
        Ok(Done::Waited(outcome))
    }

    // The value of splitter x in the tree of the worker's bottom frame.
    pub fn read(&self, w: u32, x: u32) -> Result<Done, Refusal>
        requires { ReadyRun self.now }
        ensures { stepped self.now result ≡ step_on two_words (core_in self.now) (Read w x) }
    {
        let a = self.acting(w)?;
        if x >= self.head.numbers.splitters {
            return Err(Refusal::NoSplitter);
        }
        let root = self.frame(a.place).root;
        Ok(Done::Value(self.pool.read_at(self.head.height, root, x)))
    }

    // Splitter x of the worker's bottom frame gets the value v: its leaf is stored, or from the first shared node on the path to it is new.
    pub fn write(&mut self, w: u32, x: u32, v: u32) -> Result<Done, Refusal>
        requires { ReadyRun self.old }
        ensures same { SameRun self.old self.new }
        ensures steps { stepped self.new result ≡ step_on two_words (core_in self.old) (Write w x v) }
    {
        let a = self.acting(w)?;
        if x >= self.head.numbers.splitters {
            return Err(Refusal::NoSplitter);
        }
        let height = self.head.height;
        let root = self.frame(a.place).root;
        match self.pool.first_shared(height, root, x) {
            FirstShared::Leaf(leaf) => {
                self.pool.set_value(leaf, v);
                Ok(Done::Written(self.head.free_count))
            }
            FirstShared::Node(shared) => {
                if self.head.free_count <= shared.level {
                    return Err(Refusal::PoolFull);
                }
                let free = self.free_nodes();
                let written = self.pool.write_shared(height, free, root, x, v, shared);
                let f = self.frame(a.place);
                put_frame(self.frames, a.place, f.with_root(written.root));
                self.head.numbers.free_node = written.free.first;
                self.head.free_count = written.free.count;
                Ok(Done::Written(written.free.count))
            }
        }
    }

    // "folds its value into the reducer named in its splitter field"
    pub fn fold(&mut self, w: u32, reducer: u32, v: u32) -> Result<Done, Refusal>
        requires { ReadyRun self.old }
        ensures same { SameRun self.old self.new }
        ensures steps { stepped self.new result ≡ step_on two_words (core_in self.old) (Fold w reducer v) }
    {
        let a = self.acting(w)?;
        if reducer >= REDUCERS {
            return Err(Refusal::NoReducer);
        }
        fold_at(self.frames, a.place, reducer, v);
        Ok(Done::Folded)
    }

    // Worker w, which is idle, takes the top frame of worker v.
    pub fn steal(&mut self, w: u32, v: u32) -> Result<Done, Refusal>
        requires { ReadyRun self.old }
        ensures same { SameRun self.old self.new }
        ensures steps { stepped self.new result ≡ step_on two_words (core_in self.old) (Steal w v) }
    {
        self.may_steal(w, v)?;
        let place = top_at(self.deques, v);
        let depth = self.frame(place).depth;
        steal_frame(self.deques, w, v);
        Ok(Done::Stolen(depth))
    }
}
