// The lent work slice.
ghost use Rattle.std.specs.Prelude.{◌≡◌};
ghost use Rattle.soundness.specs.Soundness.{cleared};

// The first n words are zero; if there are fewer, nothing changes.
pub fn clear(work: &mut [u32], n: u32)
    ensures { work.new ≡ cleared n work.old }
{
    let end = n as usize;
    if end > work.len() {
        return;
    }
    work[..end].fill(0);
}
