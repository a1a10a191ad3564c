// The state that a host lends, with its parts of words at their lengths (document 02, R-1 and R-6).
ghost use Rattle.std.specs.Prelude.{◌≡◌};
ghost use Rattle.semantics.specs.Entries.{zeros};
ghost use Rattle.semantics.specs.Promises.{parts, Fits};
ghost use Rattle.engine.specs.State.{parts_in, parts_at, SameParts};

use crate::state_ref::StateRef;
use frames::{DEQUE_WORDS, Frame};
use image::NUMBER_COUNT;

#[derive(Drop)]
pub struct State<'a> {
    pub numbers: &'a mut [u32; NUMBER_COUNT],
    pub deques: &'a mut [u32; DEQUE_WORDS],
    pub frames: &'a mut [Frame],
}

impl StateRef<'_> {
    pub fn new<'a>(
        numbers: &'a [u32; NUMBER_COUNT],
        deques: &'a [u32; DEQUE_WORDS],
        frames: &'a [Frame],
    ) -> StateRef<'a>
        ensures same { parts_at result ≡ parts numbers.now deques.now frames.now }
        ensures fit { Fits (parts numbers.now deques.now frames.now) }
    {
        StateRef {
            numbers,
            deques,
            frames,
        }
    }
}

impl State<'_> {
    pub fn shared(&self) -> StateRef<'_>
        ensures same { parts_at result ≡ parts_in self.now }
        ensures fit { Fits (parts_in self.now) }
    {
        StateRef::new(self.numbers, self.deques, self.frames)
    }

    // "a state of zeros": the table stays.
    pub fn clear(&mut self)
        ensures same { SameParts self.old self.new }
        ensures zero { parts_in self.new ≡ zeros self.old.frames.now }
    {
        self.numbers.fill(0);
        self.deques.fill(0);
    }
}
