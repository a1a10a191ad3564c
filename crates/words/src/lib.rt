#![tactic(auto)]
// Total reads and stores of lent slices, whose places past the end read as a value that the caller names and are not stored.
ghost use Rattle.std.specs.Prelude.{◌≡◌, slice_index_or, slice_set};

// document 01: "None is 4,294,967,295"
pub const NONE: u32 = 4294967295;

// The element at `at`, and `other` past the end.
pub fn at_or<T: Copy>(xs: &[T], at: usize, other: T) -> T
    ensures { result ≡ slice_index_or xs.now at other }
{
    xs.get(at).copied().unwrap_or(other)
}

// Stores an element; past the end, nothing.
pub fn put<T: Copy>(xs: &mut [T], at: usize, x: T)
    ensures { xs.new ≡ slice_set xs.old at x }
{
    if at < xs.len() {
        xs[at] = x;
    }
}
