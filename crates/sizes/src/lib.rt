#![tactic(auto)]
// The split tree's measures for n splitters: its height, the nodes of a level, all its nodes.
ghost use Rattle.std.specs.Prelude.{◌≡◌};
ghost use Rattle.sizes.specs.Sizes.{height, width, tree_nodes};

// The least h with 2^h at least n.
pub fn height_of(n: u32) -> u32
    ensures { result ≡ height n }
{
    u32::BITS - n.saturating_sub(1).leading_zeros()
}

// The nodes of level l: n / 2^l, rounded up.
pub fn width_of(n: u32, l: u32) -> u32
    ensures { result ≡ width n l }
{
    if n == 0 {
        return 0;
    }
    if l >= 32 {
        return 1;
    }
    ((n - 1) >> l) + 1
}

// T(n): the nodes of all levels.
pub fn tree_nodes(n: u32) -> u64
    ensures { result ≡ tree_nodes n }
{
    let mut total: u64 = 0;
    for l in 0..=height_of(n) {
        total += width_of(n, l) as u64;
    }
    total
}
