// The links of an inner node in 16 bits each, as its second word packs them: 65,535 for none.
ghost use Rattle.std.specs.Prelude.{◌≡◌, ◌+◌, ◌*◌, ◌/◌, ◌%◌, ◌<◌};
ghost use Rattle.sizes.specs.Sizes.{bit};
ghost use Rattle.pool.specs.Pool.{side};

#[derive(Clone, Copy)]
pub struct Links {
    pub left: u32,
    pub right: u32,
    ghost left_fits: { left < 65536 },
    ghost right_fits: { right < 65536 },
}

impl From<u32> for Links {
    ghost from_gives = { λ w t. (t.left ≡ w % 65536) × (t.right ≡ w / 65536) };

    fn from(w: u32) -> Links {
        Links {
            left: w & 65535,
            right: w >> 16,
        }
    }
}

impl From<Links> for u32 {
    ghost from_gives = { λ t w. w ≡ t.left + 65536 * t.right };

    fn from(t: Links) -> u32 {
        t.left + (t.right << 16)
    }
}

// a where the way to splitter x goes left at level l + 1, b where it goes right: chosen with no branch.
#[tactic(auto, using(crate::proofs::Words::side_left, crate::proofs::Words::side_right))]
fn on_way(l: u32, x: u32, a: u32, b: u32) -> u32
    requires { l < 32 }
    ensures { result ≡ side (bit l x) a b }
{
    if (x >> l) & 1 == 0 { a } else { b }
}

impl Links {
    // The link on the way to splitter x.
    pub fn toward(self, l: u32, x: u32) -> u32
        requires { l < 32 }
        ensures { result ≡ side (bit l x) self.left self.right }
    {
        on_way(l, x, self.left, self.right)
    }

    // The other one.
    pub fn beside(self, l: u32, x: u32) -> u32
        requires { l < 32 }
        ensures { result ≡ side (bit l x) self.right self.left }
    {
        on_way(l, x, self.right, self.left)
    }

    // With node c on the way; the other link stays as it is.
    pub fn relinked(self, l: u32, x: u32, c: u32) -> Links
        requires { (l < 32) × (c < 65535) }
        ensures { (result.left ≡ side (bit l x) c self.left) × (result.right ≡ side (bit l x) self.right c) }
    {
        Links {
            left: on_way(l, x, c, self.left),
            right: on_way(l, x, self.right, c),
        }
    }
}
