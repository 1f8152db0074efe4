// Room on the stack, and one part of a buffer copied to another.
ghost use Rattle.std.specs.Prelude.{◌≡◌, length, replicate};

// N entries of one value. A literal of many entries would unfold where it stands.
pub fn filled<T: Copy, const N: usize>(value: T) -> [T; N]
    ensures { result ≡ replicate N value }
{
    [value; N]
}

// Copies the entries to a slice of as many.
// Kept: the library's `copy_from_slice` asks `memmove` of the host that the archive for C is linked with, which nothing else does.
pub fn copy<T: Copy>(from: &[T], to: &mut [T])
    requires { length to.old ≡ length from.now }
    ensures { to.new ≡ from.now }
{
    for i in 0..to.len() {
        to[i] = from[i];
    }
}
