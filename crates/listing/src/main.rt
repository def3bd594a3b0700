// The listing program: reads a table's words on standard input and prints its net.
#![tactic(auto)]

ghost use Rattle.std.specs.Prelude.{◌≤◌, IfOk, length};

use std::io;
use std::io::{Read, Write};

// Reads the input until it ends or `input` is full, and answers how many bytes it has.
fn read(from: &mut impl Read, input: &mut [u8]) -> io::Result<usize>
    ensures { IfOk result (λ n. n ≤ length input.new) }
{
    let mut count = 0;
    while count < input.len() {
        let more = from.read(&mut input[count..])?;
        if more == 0 {
            return Ok(count);
        }
        count += more;
    }
    Ok(count)
}

fn main(rt: HostRuntime) -> io::Result<()> {
    let mut bytes = [0u8; 65536];
    let count = read(&mut rt.stdin(), &mut bytes)?;
    let mut text = [0u8; 262144];
    let size = print::list_all(&bytes[..count], &mut text);
    rt.stdout().write_all(&text[..size])
}
