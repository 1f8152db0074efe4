// Recordings that are told in few numbers, so that a long one takes no room in the text: a seed, a weight, and a pattern, its length first.
// For each byte a number is drawn from the one before, x becoming 48271 x mod 2^31 - 1, from the seed on. Where floor(x / 2^15) mod 256 is below the weight,
// byte i is the pattern's at i modulo its length, else it is floor(x / 2^23).
use cases::entries::repeated;
use cases::reading::Reader;

// Reads how the recording is told, and fills it.
pub fn record(reader: &mut Reader, recording: &mut [u8]) {
    let mut pattern = [0u8; 1024];
    let mut x = reader.number();
    let weight = reader.number();
    let count = reader.at_most(pattern.len());
    let pattern = &mut pattern[..count];
    reader.fill(pattern, u8::MAX);
    for (i, byte) in recording.iter_mut().enumerate() {
        x = x % 2147483647 * 48271 % 2147483647;
        *byte = byte_at(x, weight, pattern, i);
    }
}

fn byte_at(x: u64, weight: u64, pattern: &[u8], i: usize) -> u8 {
    if x / 32768 % 256 < weight {
        return repeated(pattern, i);
    }
    (x / 8388608 % 256) as u8
}
