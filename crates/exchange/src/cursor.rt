// A cursor is the bytes that are left of a text: each step takes them and gives those behind what it read.
ghost use Rattle.std.specs.Prelude.{◌≡◌};
ghost use Rattle.exchange.specs.Grammar.{is_space};
ghost use Rattle.exchange.specs.Reader.{skip, read_token};
ghost use Rattle.exchange.specs.Cursor.{left_of};

// The bytes from the first on that is no white space.
#[tactic(auto, unfolding(crate::specs::Reader::skip))]
pub fn skip_space(s: &[u8]) -> &[u8]
    ensures { result.now ≡ skip s.now }
{
    let mut left = s;
    while let [c, more @ ..] = left
        && is_space(*c)
    {
        left = more;
    }
    left
}

// Space, tab, line feed or carriage return.
#[tactic(auto, unfolding(crate::specs::Grammar::is_space))]
fn is_space(c: u8) -> bool
    ensures { result ≡ is_space c }
{
    c == b' ' || c == b'\t' || c == b'\n' || c == b'\r'
}

// The bytes k, white space before them.
pub fn token<'a>(s: &'a [u8], k: &[u8]) -> Option<&'a [u8]>
    ensures { left_of result ≡ read_token k.now s.now }
{
    skip_space(s).strip_prefix(k)
}
