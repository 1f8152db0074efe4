// An array of a text that was read, held by where it stands.
ghost use Rattle.std.specs.Prelude.{◌≡◌, length};
ghost use Rattle.exchange.specs.Arrays.{numbers_in};

// The bytes from its bracket on, and how many numbers it has.
#[derive(Clone, Copy)]
pub struct Listed<'a> {
    pub text: &'a [u8],
    pub count: usize,
    ghost counted: { count ≡ length (numbers_in text.now) },
}
