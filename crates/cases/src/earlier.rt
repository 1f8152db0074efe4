// Words as the earlier rule left them: the blocks of one board, and the bytes past the last, laid byte by byte.
ghost use Rattle.std.specs.Prelude.{◌<◌};

use counting::block::place_in;

// Bit b of block e goes to bit e % 64 of word b × S + e / 64, where S is the words of a row; what does not fit is left out.
pub fn lay(bytes: &[u8], block_size: usize, low_first: bool, ones: bool, words: &mut [u64]) {
    words.fill(if ones { u64::MAX } else { 0 });
    let size = block_size / 8;
    if size == 0 {
        return;
    }
    let stride = words.len() / block_size;
    for (t, byte) in bytes.iter().enumerate() {
        for r in 0..8 {
            let b = t % size * 8 + r;
            lay_bit(
                bit(*byte, r, low_first),
                t / size,
                b.saturating_mul(stride),
                words,
            );
        }
    }
}

// Number r of a byte's bits in the bit order.
fn bit(byte: u8, r: usize, low_first: bool) -> bool
    requires { r < 8 }
{
    (byte >> place_in(low_first, r)) % 2 == 1
}

// Lays a bit of block e, whose row begins at `row`.
fn lay_bit(v: bool, e: usize, row: usize, words: &mut [u64]) {
    if let Some(word) = words.get_mut(row.saturating_add(e / 64)) {
        let lane = 1 << (e % 64);
        *word = if v { *word | lane } else { *word & !lane };
    }
}
