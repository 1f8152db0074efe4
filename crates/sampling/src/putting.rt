// Bytes put into the words.
ghost use Rattle.std.specs.Prelude.{◌≡◌, ◌+◌, ◌*◌, ◌≤◌, ◌<◌, length};
ghost use Rattle.sampling.specs.Putting.{put_bit, put_bits, put_bytes};

use counting::block::place_in;

// A byte's place in the recording: its block, and which byte of the block it is.
#[derive(Clone, Copy)]
pub struct Place {
    pub block: usize,
    pub byte: usize,
}

impl Place {
    // The place of the next byte; size is the bytes of a block.
    fn next(self, size: usize) -> Place
        requires { (self.byte < size) × (self.block < 9223372036854775808) }
        ensures { (result.block * size + result.byte ≡ self.block * size + self.byte + 1) × (result.byte < size) }
    {
        let byte = self.byte + 1;
        if byte == size {
            Place {
                block: self.block + 1,
                byte: 0,
            }
        } else {
            Place {
                block: self.block,
                byte,
            }
        }
    }
}

// How blocks lie in the words: the bytes of a block, the words of a row, and whether the low bit of a byte comes first.
#[derive(Clone, Copy)]
pub struct Layout {
    pub size: usize,
    pub stride: usize,
    pub low_first: bool,
}

impl Layout {
    // Puts the bytes in from a place on.
    // The place goes from byte to byte, so that no byte costs a division.
    pub fn put_bytes(self, words: &mut [u64], from: Place, bytes: &[u8])
        requires byte_lt_size { from.byte < self.size }
        requires stride_in_bounds { 8 * self.size * self.stride ≤ length words.old }
        requires bytes_bound { from.block * self.size + from.byte + length bytes.now ≤ 64 * self.stride * self.size }
        ensures { words.new ≡ put_bytes self.low_first self.size self.stride words.old (from.block * self.size + from.byte) bytes.now (length bytes.now) }
    {
        let mut place = from;
        for x in bytes {
            let e = place.block;
            self.put_byte(words, 8 * place.byte * self.stride + e / 64, e % 64, *x);
            place = place.next(self.size);
        }
    }

    // Puts the byte's bits, in the bit order, into bit k of the words at, at + stride, ..
    fn put_byte(self, words: &mut [u64], at: usize, k: usize, x: u8)
        requires stride_in_bounds { at + 7 * self.stride < length words.old }
        requires k_bound { k < 64 }
        ensures { words.new ≡ put_bits self.low_first self.stride words.old at k x 8 }
    {
        for r in 0..8 {
            let v = (x >> place_in(self.low_first, r)) % 2;
            put_bit(words, at + r * self.stride, k, u64::from(v));
        }
    }
}

// Puts the bit v, 0 or 1, into bit k of word i: a 0 changes nothing.
fn put_bit(words: &mut [u64], i: usize, k: usize, v: u64)
    requires i_in_bounds { i < length words.old }
    requires k_bound { k < 64 }
    requires v_bound { v < 2 }
    ensures { words.new ≡ put_bit words.old i k v }
{
    words[i] |= v << k;
}
