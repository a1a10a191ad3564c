// Splitrun's input: "workers and n (16 bits each), nodes (32 bits), n initial values, then records". Bytes past the end are 0.
ghost use Rattle.std.specs.Prelude.{◌≡◌, ◌+◌, ◌<◌, ◌^◌, length};
ghost use Rattle.lines.specs.Lines.{workers_in, splitters_in, nodes_in, number16_at, number32_at, numbers_at, unfit};

use words::at_or;

fn number16_at(input: &[u8], at: usize) -> u32
    requires { at + 1 < 2 ^ 64 }
    ensures { result ≡ number16_at input.now at }
{
    u16::from_le_bytes([at_or(input, at, 0), at_or(input, at + 1, 0)]) as u32
}

fn number32_at(input: &[u8], at: usize) -> u32
    requires { at + 3 < 2 ^ 64 }
    ensures { result ≡ number32_at input.now at }
{
    u32::from_le_bytes([
        at_or(input, at, 0),
        at_or(input, at + 1, 0),
        at_or(input, at + 2, 0),
        at_or(input, at + 3, 0),
    ])
}

pub fn workers_in(input: &[u8]) -> u32
    ensures { result ≡ workers_in input.now }
{
    number16_at(input, 0)
}

pub fn splitters_in(input: &[u8]) -> u32
    ensures { result ≡ splitters_in input.now }
{
    number16_at(input, 2)
}

pub fn nodes_in(input: &[u8]) -> u32
    ensures { result ≡ nodes_in input.now }
{
    number32_at(input, 4)
}

// "A header or values cut short, n over 256, nodes over 1,024 or more than 16,384 bytes of records", in so many bytes of input.
pub fn is_unfit(size: usize, n: u32, nodes: u32) -> bool
    ensures { result ≡ unfit size n nodes }
{
    let start = 8 + 4 * (n as usize);
    if size < 8 || n > 256 || nodes > 1024 || size < start {
        return true;
    }
    size - start > 16384
}

// As many initial values as there is room for.
pub fn read_values(input: &[u8], values: &mut [u32])
    ensures { values.new ≡ numbers_at (length values.old) input.now 8 }
{
    for i in 0..values.len() {
        values[i] = number32_at(input, 8 + 4 * i);
    }
}
