// Samplers that a host lends: 8 numbers in one slice and 2,048 bytes in another; and 4 numbers of a sampler of the earlier rule.
ghost use Rattle.std.specs.Prelude.{◌≡◌, ◌≤◌, ◌<◌, length};
ghost use Rattle.counting.specs.Refusal.{refusal_of};
ghost use Rattle.sampling.specs.Feeding.{as_taken, next_head};
ghost use Rattle.exports.specs.Records.{written};
ghost use Rattle.exports.specs.Samplers.{sampler_numbers, head_of, earlier_of, SamplerWritten, sampler_room, sampler_unread, feed_unread, search_unread, carry_unread};

use crate::records::{enough, order_number, order_unread, write_sizes};
use counting::refusal::Refusal;
use sampling::carrying::Earlier;
use sampling::feeding::{Taken, write_bytes};
use sampling::sampler::{Head, Sampler};

// Numbers where a sampler cannot be written to slices of so many numbers and bytes.
pub fn sampler_room(numbers: usize, bytes: usize) -> Result<(), Refusal>
    ensures { refusal_of result ≡ sampler_room numbers bytes }
{
    enough(numbers, 8)?;
    enough(bytes, 2048)
}

// Numbers or BitOrder where a sampler's numbers cannot be read from the slice.
pub fn sampler_unread(numbers: &[u64]) -> Result<(), Refusal>
    ensures { refusal_of result ≡ sampler_unread numbers.now }
{
    enough(numbers.len(), 8)?;
    order_unread(numbers[3])
}

// The same, or Numbers where its unfinished bytes are not in a slice of so many.
pub fn feed_unread(numbers: &[u64], bytes: usize) -> Result<(), Refusal>
    ensures { refusal_of result ≡ feed_unread numbers.now bytes }
{
    enough(bytes, 2048)?;
    sampler_unread(numbers)
}

// The same, or Numbers where a finding cannot be written to a slice of `room` numbers.
pub fn search_unread(numbers: &[u64], room: usize) -> Result<(), Refusal>
    ensures { refusal_of result ≡ search_unread numbers.now room }
{
    enough(room, 25)?;
    sampler_unread(numbers)
}

// Numbers or BitOrder where a sampler of the earlier rule cannot be read, or today's not be written to slices of so many numbers and bytes.
pub fn carry_unread(earlier: &[u64], numbers: usize, bytes: usize) -> Result<(), Refusal>
    ensures { refusal_of result ≡ carry_unread earlier.now numbers bytes }
{
    enough(earlier.len(), 4)?;
    sampler_room(numbers, bytes)?;
    order_unread(earlier[3])
}

// The sampler whose numbers stand first in the slice.
pub fn read_head(numbers: &[u64]) -> Head
    requires { 8 ≤ length numbers.now }
    ensures { result ≡ head_of numbers.now }
{
    Head {
        block_size: numbers[0] as usize,
        words: numbers[1] as usize,
        blocks: numbers[2] as usize,
        low_first: numbers[3] == 1,
        lengths: [
            numbers[4] as usize,
            numbers[5] as usize,
            numbers[6] as usize,
            numbers[7] as usize,
        ],
    }
}

// The sampler of the earlier rule whose numbers stand first in the slice.
pub fn read_earlier(numbers: &[u64]) -> Earlier
    requires { 4 ≤ length numbers.now }
    ensures { result ≡ earlier_of numbers.now }
{
    Earlier {
        block_size: numbers[0] as usize,
        words: numbers[1] as usize,
        taken: numbers[2] as usize,
        low_first: numbers[3] == 1,
    }
}

// Puts the sampler's numbers first in one slice, and its unfinished bytes in the other.
pub fn write_sampler(sampler: Sampler, numbers: &mut [u64], bytes: &mut [u8])
    requires { (8 ≤ length numbers.old) × (2048 ≤ length bytes.old) }
    ensures { SamplerWritten sampler numbers.old bytes.old numbers.new bytes.new }
{
    write_head(sampler.head, numbers);
    let unfinished = sampler.unfinished;
    write_bytes(bytes, 0, &unfinished[..]);
}

// Puts in what a feed to the board has changed: n, and how many unfinished bytes the board has. The other numbers stand there as they were read.
pub fn write_taken(taken: &Result<Taken, Refusal>, board: usize, numbers: &mut [u64])
    requires numbers_value { sampler_unread numbers.old ≡ 0 }
    requires board_bound { refusal_of taken.now ≡ 0 → board < 4 }
    ensures { numbers.new ≡ written (sampler_numbers (next_head (head_of numbers.old) board (as_taken taken.now))) numbers.old }
{
    if let Ok(taken) = taken {
        numbers[2] = taken.blocks as u64;
        numbers[4 + board] = taken.left as u64;
    }
}

// Puts the sampler's numbers first.
fn write_head(head: Head, numbers: &mut [u64])
    requires { 8 ≤ length numbers.old }
    ensures { numbers.new ≡ written (sampler_numbers head) numbers.old }
{
    numbers[0] = head.block_size as u64;
    numbers[1] = head.words as u64;
    numbers[2] = head.blocks as u64;
    numbers[3] = order_number(head.low_first);
    let lengths = head.lengths;
    write_sizes(&lengths[..], 4, numbers);
}
