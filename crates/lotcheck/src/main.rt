// lotcheck: the acceptance sheet of one recording. Standard input is a header and the raw bytes; the sheet, or a refusal, goes to standard output.
#![tactic(auto)]

ghost use Rattle.std.specs.Prelude.{◌≤◌, length, IfOk};

use counting::buffer::filled;
use std::io;
use std::io::{Print, Read, Stdin, Stdout};

fn main(rt: HostRuntime) -> io::Result<()> {
    // A header of 13 bytes, 8,192 raw bytes, and one more, by which a longer input shows.
    let mut space = filled::<u8, 8206>(0);
    let length = read_full(rt.stdin(), &mut space)?;
    print_sheet(rt.stdout(), &space[..length])
}

// Reads until the space is full or the input ends, and answers how many bytes it put at the start of the space.
fn read_full(stdin: Stdin, space: &mut [u8]) -> io::Result<usize>
    ensures { IfOk result (λ read. read ≤ length space.new) }
{
    let mut stdin = stdin;
    let mut done = 0;
    // Kept: the step is what was read, not a count. (`cases::input::read_full` is the same; a rule of the project keeps both: the product stands on no crate of the tests, and no crate below reads.)
    while done < space.len() {
        let read = stdin.read(&mut space[done..])?;
        if read == 0 {
            break;
        }
        done += read;
    }
    Ok(done)
}

// Prints the sheet of an input. No sheet is longer than 155 bytes.
fn print_sheet(stdout: Stdout, input: &[u8]) -> io::Result<()> {
    let mut out = filled::<u8, 155>(0);
    let length = sheet::sheet::sheet(input, &mut out);
    stdout.write_all(&out[..length])
}
