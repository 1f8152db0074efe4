// Cases of single blocks: the bit order, 1 where the low bit comes first; the number of bytes, the bytes, the number of bits, the bits.
// Answer: each bit's value, then the bin.
ghost use Rattle.std.specs.Prelude.{◌≤◌, length};

use crate::fitting::in_block;
use cases::printing::{end_line, print_number};
use cases::reading::Reader;
use counting::block::{bit_value_in_block, bits_block_eval};
use std::io;
use std::io::Stdout;

// The number of cases, then the cases.
pub fn replay(stdout: Stdout, reader: &mut Reader) -> io::Result<()> {
    reader.each(|reader| replay_one(stdout, reader))
}

fn replay_one(stdout: Stdout, reader: &mut Reader) -> io::Result<()> {
    let mut block = [0u8; 512];
    let mut bits = [0u32; 20];
    let low_first = reader.flag();
    let size = reader.at_most(block.len());
    let block = &mut block[..size];
    reader.fill(block, u8::MAX);
    let k = reader.at_most(bits.len());
    let bits = &mut bits[..k];
    reader.fill(bits, u32::MAX);
    answer(stdout, bits, low_first, block)?;
    end_line(stdout)
}

// Prints 99 alone where a bit lies outside the block.
fn answer(stdout: Stdout, bits: &[u32], low_first: bool, block: &[u8]) -> io::Result<()>
    requires { length bits.now ≤ 20 }
{
    if !in_block(bits, block.len()) {
        return print_number(stdout, 99);
    }
    for bit in bits {
        print_number(stdout, bit_value_in_block(*bit as usize, low_first, block))?;
    }
    print_number(stdout, bits_block_eval(bits, low_first, block))
}
