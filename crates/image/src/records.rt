// A frame record as words of an image, and back.
ghost use Rattle.std.specs.Prelude.{◌≡◌, ◌+◌, ◌*◌, ◌≤◌, length};
ghost use Rattle.frames.specs.Widths.{record_words};
ghost use Rattle.frames.specs.Frames.{words_of, record_in};
ghost use Rattle.image.specs.Widths.{block_bytes};
ghost use Rattle.image.specs.Image.{blocks_for};
ghost use Rattle.image.specs.Inner.{read_words};

use crate::read::read_words;
use crate::write::write_words;
use frames::{Frame, RECORD_WORDS};
use reducers::{Affine, Min, Sum, View};

// A record's words.
pub fn words_of(f: &Frame) -> [u32; RECORD_WORDS]
    ensures { result ≡ words_of f.now }
{
    [
        f.live,
        f.parent,
        f.depth,
        f.outstanding,
        f.suspended,
        f.root,
        f.returning,
        f.view.sum.value,
        f.view.min.value,
        f.view.affine.multiplier,
        f.view.affine.addend,
        f.younger,
    ]
}

// The record of the data's words from i on.
pub fn read_record(image: &[u8], i: usize) -> Frame
    requires { block_bytes * blocks_for (i + record_words) ≤ length image.now }
    ensures { result ≡ record_in (read_words record_words image.now i) }
{
    let mut words = [0u32; RECORD_WORDS];
    read_words(image, i, &mut words);
    Frame {
        live: words[0],
        parent: words[1],
        depth: words[2],
        outstanding: words[3],
        suspended: words[4],
        root: words[5],
        returning: words[6],
        view: View {
            sum: Sum { value: words[7] },
            min: Min { value: words[8] },
            affine: Affine {
                multiplier: words[9],
                addend: words[10],
            },
        },
        younger: words[11],
    }
}
