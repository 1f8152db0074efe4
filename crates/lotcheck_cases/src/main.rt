// Replays stored inputs of lotcheck and prints what the sheet crate answers and leaves in the lent buffer; `stdin` lists the inputs and says how the answers
// were made.
#![tactic(auto)]

use cases::entries::repeated;
use cases::input::answer_input;
use cases::printing::{end_line, print_number};
use cases::reading::Reader;
use counting::buffer::filled;
use std::io;
use std::io::{Print, Stdout};

fn main(rt: HostRuntime) -> io::Result<()> {
    answer_input::<262144, _>(rt.stdin(), |reader| replay(rt.stdout(), reader))
}

// The number of inputs, up to 1,000, then the inputs.
fn replay(stdout: Stdout, reader: &mut Reader) -> io::Result<()> {
    // Kept: `Reader::each` knows no limit, and with one as a parameter it is no plainer.
    for _ in 0..reader.at_most(1000) {
        replay_one(stdout, reader)?;
    }
    Ok(())
}

// One input: the length of the lent buffer, which is full of dots before, the header, a period, and how many bytes of the period over and over follow the header.
// Prints what is answered, and the whole buffer afterwards.
fn replay_one(stdout: Stdout, reader: &mut Reader) -> io::Result<()> {
    let mut out = [b'.'; 160];
    let mut header = [0u8; 64];
    let mut period = [0u8; 256];
    let mut input = filled::<u8, 8320>(0);
    let count = reader.at_most(out.len());
    let out = &mut out[..count];
    let count = reader.at_most(header.len());
    let header = &mut header[..count];
    reader.fill(header, u8::MAX);
    let count = reader.at_most(period.len());
    let period = &mut period[..count];
    reader.fill(period, u8::MAX);
    let raw = reader.at_most(8256);
    let input = &mut input[..header.len() + raw];
    for (i, byte) in input.iter_mut().enumerate() {
        *byte = byte_at(header, period, i);
    }
    print_number(stdout, sheet::sheet::sheet(input, out))?;
    end_line(stdout)?;
    stdout.write_all(out)?;
    end_line(stdout)
}

fn byte_at(header: &[u8], period: &[u8], i: usize) -> u8 {
    if i < header.len() {
        return header[i];
    }
    repeated(period, i - header.len())
}
