// Standard input, and room for much of it.
ghost use Rattle.std.specs.Prelude.{◌≡◌, ◌<◌, ◌≤◌, length, IfOk};

use crate::reading::Reader;
use counting::buffer::filled;
use std::io;
use std::io::{Read, Stdin};

// Reads until the space is full or the input ends, and answers how many bytes it put at the start of the space.
pub fn read_full(stdin: Stdin, space: &mut [u8]) -> io::Result<usize>
    ensures { IfOk result (λ read. read ≤ length space.new) }
{
    let mut stdin = stdin;
    let mut done = 0;
    // Kept: a turn goes on by what was read, so its step is no count.
    while done < space.len() {
        let read = stdin.read(&mut space[done..])?;
        if read == 0 {
            break;
        }
        done += read;
    }
    Ok(done)
}

// Reads up to N bytes of standard input, and has them answered.
pub fn answer_input<const N: usize, F: FnOnce(&mut Reader) -> io::Result<()>>(
    stdin: Stdin,
    answer: F,
) -> io::Result<()>
    requires room { N < 9223372036854775808 }
    requires callable { F.IsAlwaysCallable answer }
{
    let mut space = filled::<u8, N>(0);
    let length = read_full(stdin, &mut space)?;
    answer(&mut Reader::new(&space[..length]))
}

// 65,536 zeros, for the bytes of a recording.
pub fn large_buffer() -> [u8; 65536]
    ensures { 65536 ≡ length result }
{
    filled(0)
}
