// The lent state, only to be read. Its ghost fields say the lengths that the array types have.
ghost use Rattle.std.specs.Prelude.{◌≡◌, length};
ghost use Rattle.frames.specs.Widths.{deque_words};
ghost use Rattle.soundness.specs.Numbers.{number_count};

use frames::{DEQUE_WORDS, Frame};
use image::NUMBER_COUNT;

#[derive(Clone, Copy)]
pub struct StateRef<'a> {
    pub numbers: &'a [u32; NUMBER_COUNT],
    pub deques: &'a [u32; DEQUE_WORDS],
    pub frames: &'a [Frame],
    pub ghost numbers_long: { length numbers.now ≡ number_count },
    pub ghost deques_long: { length deques.now ≡ deque_words },
}
