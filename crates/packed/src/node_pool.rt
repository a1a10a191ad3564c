// A pool of nodes, and its free list.
ghost use Rattle.std.specs.Prelude.{◌*◌, ◌≤◌, length};

// The words of the pool, and how many nodes they hold.
#[derive(Drop)]
pub struct Pool<'a> {
    pub words: &'a mut [u32],
    pub nodes: u32,
    pub ghost held: { 2 * nodes ≤ length words.now },
    pub ghost few: { nodes ≤ 16384 },
}

// The free list: its first node, and how many nodes it has.
#[derive(Clone, Copy)]
pub struct Free {
    pub first: u32,
    pub count: u32,
}
