// From each subset to the next, in lexicographic order.
ghost use Rattle.std.specs.Prelude.{◌≡◌, ◌≤◌, ◌<◌, take};
ghost use Rattle.subsets.specs.Subsets.{Subset, numbers_from, padded};
ghost use Rattle.subsets.specs.Stepping.{Stepped};

// The first k-subset: 0, 1, .., k - 1, and 0 in the entries past it.
pub fn first(k: usize) -> [u32; 20]
    requires { k ≤ 20 }
    ensures { result ≡ padded (numbers_from 0 k) }
{
    let mut bits = [0u32; 20];
    for (i, bit) in bits[..k].iter_mut().enumerate() {
        *bit = i as u32;
    }
    bits
}

// Puts the next k-subset of a block in the place of the one in the first k entries of bits; false where that is the last.
// Where the last bit is at its end, the bits before it step in the block that is one shorter, and it follows them.
// Kept: k stands beside the bits, since the promise Stepped speaks of the entries from k on too.
pub fn successor(bits: &mut [u32], k: usize, block_size: usize) -> bool
    requires { (block_size < 4294967296) × Subset block_size k (take k bits.old) }
    ensures { Stepped block_size k bits.old result bits.new }
{
    if k == 0 {
        return false;
    }
    let at = k - 1;
    let end = block_size - 1;
    let bit = bits[at];
    if (bit as usize) < end {
        bits[at] = bit + 1;
        return true;
    }
    if !successor(bits, at, end) {
        return false;
    }
    bits[at] = bits[at - 1] + 1;
    true
}
