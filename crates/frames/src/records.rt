// Single frame records by value: those that a step makes or changes, and what is asked of one.
ghost use Rattle.std.specs.Prelude.{◌≡◌, ◌&&◌, eqb};
ghost use Rattle.reducers.specs.Reducers.{join_view, fold_view};
ghost use Rattle.frames.specs.Frames.{with_suspended, with_root, with_view, with_younger, without_child, after_spawn, as_returning, child_of, free_record, main_frame};
ghost use Rattle.frames.specs.Steps.{waits_no_more, resumes, ends_too};

use super::{Frame, NONE};
use reducers::{Affine, Min, Monoid, Sum, View};

impl Frame {
    // A spawned child of the frame f at place p.
    pub fn child_of(f: Frame, p: u32) -> Frame
        ensures { result ≡ child_of f p }
    {
        Frame {
            live: 1,
            parent: p,
            depth: f.depth.wrapping_add(1),
            outstanding: 0,
            suspended: 0,
            root: f.root,
            returning: 0,
            view: f.view,
            younger: NONE,
        }
    }

    // A free place, with the next one; its view is one of zeros.
    pub fn free(next: u32) -> Frame
        ensures { result ≡ free_record next }
    {
        Frame {
            live: 0,
            parent: next,
            depth: 0,
            outstanding: 0,
            suspended: 0,
            root: 0,
            returning: 0,
            view: View {
                sum: Sum { value: 0 },
                min: Min { value: 0 },
                affine: Affine {
                    multiplier: 0,
                    addend: 0,
                },
            },
            younger: 0,
        }
    }

    // Main, with the tree of this root.
    pub fn main(root: u32) -> Frame
        ensures { result ≡ main_frame root }
    {
        Frame {
            live: 1,
            parent: NONE,
            depth: 0,
            outstanding: 0,
            suspended: 0,
            root,
            returning: 0,
            view: View::IDENTITY,
            younger: NONE,
        }
    }

    // ---- with a part changed

    pub fn with_root(self, root: u32) -> Frame
        ensures { result ≡ with_root self root }
    {
        Frame { root, ..self }
    }

    // Suspended (1) or not (0).
    pub fn with_suspended(self, suspended: u32) -> Frame
        ensures { result ≡ with_suspended self suspended }
    {
        Frame { suspended, ..self }
    }

    // It waits in its return.
    pub fn as_returning(self) -> Frame
        ensures { result ≡ as_returning self }
    {
        Frame {
            suspended: 1,
            returning: 1,
            ..self
        }
    }

    // With another next younger sibling.
    pub fn with_younger(self, younger: u32) -> Frame
        ensures { result ≡ with_younger self younger }
    {
        Frame { younger, ..self }
    }

    // After its spawn.
    pub fn after_spawn(self) -> Frame
        ensures { result ≡ after_spawn self }
    {
        Frame {
            outstanding: self.outstanding.wrapping_add(1),
            view: View::IDENTITY,
            ..self
        }
    }

    // With a live child less.
    pub fn without_child(self) -> Frame
        ensures { result ≡ without_child self }
    {
        Frame {
            outstanding: self.outstanding.saturating_sub(1),
            ..self
        }
    }

    // A view has joined its own on the left.
    pub fn joined(self, view: View) -> Frame
        ensures { result ≡ with_view self (join_view view self.view) }
    {
        Frame {
            view: View::join(view, self.view),
            ..self
        }
    }

    // The value v is folded into reducer r of its view; a number that names no reducer folds nothing.
    pub fn folded(self, r: u32, v: u32) -> Frame
        ensures { result ≡ with_view self (fold_view self.view r v) }
    {
        Frame {
            view: View::folded(self.view, r, v),
            ..self
        }
    }

    // ---- what is asked of it

    // Is it suspended, with no live child left?
    pub fn waits_no_more(self) -> bool
        ensures { result ≡ waits_no_more self }
    {
        (self.suspended == 1) & (self.outstanding == 0)
    }

    // Does it, whose last child has ended, go on past its sync?
    pub fn resumes(self) -> bool
        ensures { result ≡ resumes self }
    {
        self.waits_no_more() & (self.returning != 1)
    }

    // Does it, a child of which has ended, end too?
    pub fn ends_too(self) -> bool
        ensures { result ≡ ends_too self }
    {
        self.waits_no_more() & (self.returning == 1)
    }

    // Is it a live child of the frame at place q that names x as its next younger sibling?
    pub fn child_names(self, q: u32, x: u32) -> bool
        ensures { result ≡ (eqb self.live 1 && eqb self.parent q) && eqb self.younger x }
    {
        (self.live == 1) & (self.parent == q) & (self.younger == x)
    }
}
