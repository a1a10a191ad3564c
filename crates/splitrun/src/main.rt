#![tactic(auto)]
// Reads splitrun's input (document 01) from standard input, and writes its lines to standard output. An input of more than
// 17,416 bytes is unfit, so the bytes past the buffer do not matter.
ghost use Rattle.std.specs.Prelude.{◌≤◌, length, IfOk};

use std::io::{self, Print, Read};

// Reads until the buffer is full or the input ends, and returns how many bytes are in its front.
fn read_full<R: Read>(reader: &mut R, buffer: &mut [u8]) -> io::Result<usize>
    ensures { IfOk result (λ n. n ≤ length buffer.new) }
{
    let mut got = 0;
    while got < buffer.len() {
        let n = reader.read(&mut buffer[got..])?;
        if n == 0 {
            break;
        }
        got += n;
    }
    Ok(got)
}

fn main(rt: HostRuntime) -> io::Result<()> {
    let mut input = [0u8; 20000];
    let mut lines = [0u8; 49152];
    let got = read_full(&mut rt.reader(), &mut input)?;
    let size = lines::split_run(&input[..got], &mut lines);
    rt.write_all(&lines[..size])
}
