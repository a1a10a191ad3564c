#![tactic(auto)]
// What each worker remembers (R-10), in lent words: for each worker an entry for each splitter, then a base for each worker. An entry above its worker's base is
// the base, a leaf's number and one; another remembers none. The lent words are an array, so no function tests an index.
ghost use Rattle.std.specs.Prelude.{◌≡◌, ◌<◌, length};
ghost use Rattle.frames.specs.Widths.{max_workers};
ghost use Rattle.memory.specs.Memory.{base, entry, remembered, remember, zeroed_from, emptied, row_at, max_splitters, memory_words};

// The widths of specs/Memory.antt.
pub const MAX_SPLITTERS: u32 = 256;

// The words before the bases.
const ENTRIES: usize = 2048;

pub const MEMORY_WORDS: usize = 2056;

const MAX_NODES: u32 = 16384;

pub const LAST_BASE: u32 = 4294950911;

// What worker w's entries must be above.
#[tactic(auto, unfolding(crate::specs::Memory::base))]
pub fn base_at(memory: &[u32; MEMORY_WORDS], w: u32) -> u32
    requires { w < max_workers }
    ensures base { result ≡ base memory.now w }
    ensures long { length memory.now ≡ memory_words }
{
    memory[ENTRIES + (w as usize)]
}

// Worker w's entry for splitter x.
#[tactic(auto, unfolding(crate::specs::Memory::entry))]
pub fn entry_at(memory: &[u32; MEMORY_WORDS], w: u32, x: u32) -> u32
    requires { (w < max_workers) × (x < max_splitters) }
    ensures { result ≡ entry memory.now w x }
{
    memory[(MAX_SPLITTERS as usize) * (w as usize) + (x as usize)]
}

// What worker w remembers of splitter x: its leaf's number plus one, or 0.
pub fn recall(memory: &[u32; MEMORY_WORDS], w: u32, x: u32) -> u32
    requires { (w < max_workers) × (x < max_splitters) }
    ensures { result ≡ remembered memory.now w x }
{
    entry_at(memory, w, x).saturating_sub(base_at(memory, w))
}

// Worker w remembers splitter x's leaf.
#[tactic(auto, unfolding(crate::specs::Memory::remember))]
pub fn remember(memory: &mut [u32; MEMORY_WORDS], w: u32, x: u32, leaf: u32)
    requires { (w < max_workers) × (x < max_splitters) }
    ensures { memory.new ≡ remember memory.old w x leaf }
{
    let word = base_at(memory, w).wrapping_add(leaf.wrapping_add(1));
    memory[(MAX_SPLITTERS as usize) * (w as usize) + (x as usize)] = word;
}

// Zeros in worker w's row.
fn clear_row(memory: &mut [u32; MEMORY_WORDS], w: u32)
    requires { w < max_workers }
    ensures { memory.new ≡ zeroed_from max_splitters memory.old (row_at w) }
{
    let first = (MAX_SPLITTERS as usize) * (w as usize);
    memory[first..first + (MAX_SPLITTERS as usize)].fill(0);
}

// Worker w remembers nothing: its base goes past its entries, or begins again.
#[tactic(auto, unfolding(crate::specs::Memory::emptied))]
pub fn empty(memory: &mut [u32; MEMORY_WORDS], w: u32)
    requires { w < max_workers }
    ensures { memory.new ≡ emptied memory.old w }
{
    let b = base_at(memory, w);
    if b <= LAST_BASE - MAX_NODES {
        memory[ENTRIES + (w as usize)] = b + MAX_NODES;
    } else {
        memory[ENTRIES + (w as usize)] = 0;
        clear_row(memory, w);
    }
}
