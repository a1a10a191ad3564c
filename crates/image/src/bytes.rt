// Words as bytes, the lowest first.
ghost use Rattle.std.specs.Prelude.{◌≡◌, ◌+◌, ◌*◌, ◌≤◌, length, take, drop, replicate};
ghost use Rattle.std.proofs.lemmas.List.Edits.{sets};
ghost use Rattle.words.specs.Basics.{plus};
ghost use Rattle.image.specs.Image.{word_bytes, bytes_of, word_at, check};
ghost use Rattle.image.specs.Inner.{words_at};

// The word of the four bytes from `at` on.
pub fn word_at(bytes: &[u8], at: usize) -> u32
    requires { at + 4 ≤ length bytes.now }
    ensures { result ≡ word_at bytes.now at }
{
    u32::from_le_bytes([bytes[at], bytes[at + 1], bytes[at + 2], bytes[at + 3]])
}

// Stores a word.
pub fn put_word(bytes: &mut [u8], at: usize, w: u32)
    requires { at + 4 ≤ length bytes.old }
    ensures { bytes.new ≡ sets bytes.old at (word_bytes w) }
{
    let [first, second, third, fourth] = w.to_le_bytes();
    bytes[at] = first;
    bytes[at + 1] = second;
    bytes[at + 2] = third;
    bytes[at + 3] = fourth;
}

// Stores n words of `from`, from j on, one after the other from `at` on. Gives their sum and `before`, in a word.
pub fn put_run(bytes: &mut [u8], at: usize, from: &[u32], j: usize, n: usize, before: u32) -> u32
    requires { (at + 4 * n ≤ length bytes.old) × (j + n ≤ length from.now) }
    ensures stored { bytes.new ≡ sets bytes.old at (bytes_of (take n (drop j from.now))) }
    ensures summed { result ≡ plus before (check (bytes_of (take n (drop j from.now)))) }
{
    let mut sum = before;
    for k in 0..n {
        let w = from[j + k];
        put_word(bytes, at + 4 * k, w);
        sum = sum.wrapping_add(w);
    }
    sum
}

// Stores n zero bytes.
pub fn put_zeros(bytes: &mut [u8], at: usize, n: usize)
    requires { at + n ≤ length bytes.old }
    ensures { bytes.new ≡ sets bytes.old at (replicate n 0) }
{
    for k in 0..n {
        bytes[at + k] = 0;
    }
}

// Reads four words from `at` on into `to` from j on. All four are read before the first is stored: the compiler makes one load and one
// store of them, also where it cannot tell that the slices are apart.
pub fn read_four(bytes: &[u8], at: usize, to: &mut [u32], j: usize)
    requires { (at + 16 ≤ length bytes.now) × (j + 4 ≤ length to.old) }
    ensures { to.new ≡ sets to.old j (words_at 4 bytes.now at) }
{
    let first = word_at(bytes, at);
    let second = word_at(bytes, at + 4);
    let third = word_at(bytes, at + 8);
    let fourth = word_at(bytes, at + 12);
    to[j] = first;
    to[j + 1] = second;
    to[j + 2] = third;
    to[j + 3] = fourth;
}

// Reads n times four words.
pub fn read_fours(bytes: &[u8], at: usize, to: &mut [u32], j: usize, n: usize)
    requires { (at + 16 * n ≤ length bytes.now) × (j + 4 * n ≤ length to.old) }
    ensures { to.new ≡ sets to.old j (words_at (4 * n) bytes.now at) }
{
    for k in 0..n {
        read_four(bytes, at + 16 * k, to, j + 4 * k);
    }
}

// Reads n words, one by one.
fn read_few(bytes: &[u8], at: usize, to: &mut [u32], j: usize, n: usize)
    requires { (at + 4 * n ≤ length bytes.now) × (j + n ≤ length to.old) }
    ensures { to.new ≡ sets to.old j (words_at n bytes.now at) }
{
    for k in 0..n {
        to[j + k] = word_at(bytes, at + 4 * k);
    }
}

// Reads n words, one after the other from `at` on, into `to` from j on.
pub fn read_run(bytes: &[u8], at: usize, to: &mut [u32], j: usize, n: usize)
    requires { (at + 4 * n ≤ length bytes.now) × (j + n ≤ length to.old) }
    ensures { to.new ≡ sets to.old j (words_at n bytes.now at) }
{
    let fours = n / 4;
    read_fours(bytes, at, to, j, fours);
    read_few(bytes, at + 16 * fours, to, j + 4 * fours, n % 4);
}
