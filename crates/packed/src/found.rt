// What the walk to a splitter's leaf finds.

// A node with more than one holder, its level, and the node above it (if it is not the root).
#[derive(Clone, Copy)]
pub struct Shared {
    pub level: u32,
    pub node: u32,
    pub above: u32,
}

// The first node with more than one holder, or the leaf where no node on the way is shared.
#[derive(Clone, Copy)]
pub enum FirstShared {
    Leaf(u32),
    Node(Shared),
}
