// A block: its size, its bits and its bin.
ghost use Rattle.std.specs.Prelude.{◌≡◌, ℕ, ◌/◌, ◌≤◌, ◌<◌, ◌^◌, length, get_or};
ghost use Rattle.counting.specs.Block.{valid_size, place_in, block_bit, bin_of};

// Whether B is a multiple of 8 from 8 to 4,096.
#[tactic(auto, unfolding(crate::specs::Block::valid_size))]
pub fn valid_block_size(block_size: usize) -> bool
    ensures { result ≡ valid_size block_size }
{
    block_size % 8 == 0 && 8 <= block_size && block_size <= 4096
}

// Which bit of a byte is number r of its 8, from 0 on, in the bit order.
pub fn place_in(low_first: bool, r: usize) -> usize
    requires { r < 8 }
    ensures { (result ≡ place_in low_first r) × (result < 8) }
{
    if low_first { r } else { 7 - r }
}

// Bit b of a block, 0 or 1: bit 0 is the lowest bit of its first byte where the low bit comes first, else the highest.
pub fn bit_value_in_block(bit: usize, low_first: bool, block: &[u8]) -> u32
    requires { bit / 8 < length block.now }
    ensures { (result ≡ block_bit low_first block.now bit) × (result < 2) }
{
    let value = (block[bit / 8] >> place_in(low_first, bit % 8)) % 2;
    value as u32
}

// The number of a k-subset's bins.
pub fn bin_count(k: usize) -> usize
    requires { k ≤ 20 }
    ensures { result ≡ 2 ^ k }
{
    1 << k
}

// The bin of a block: bit i of it is the block's bit bits[i].
pub fn bits_block_eval(bits: &[u32], low_first: bool, block: &[u8]) -> u32
    requires bits_len_bound { length bits.now ≤ 20 }
    requires by_index { (i : ℕ) → i < length bits.now → get_or bits.now i 0 / 8 < length block.now }
    ensures { (result ≡ bin_of (block_bit low_first block.now) bits.now) × (result < 2 ^ length bits.now) }
{
    let mut result: u32 = 0;
    for bit in bits.iter().rev() {
        result = 2 * result + bit_value_in_block(*bit as usize, low_first, block);
    }
    result
}
