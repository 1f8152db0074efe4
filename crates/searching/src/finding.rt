// What a search finds.
ghost use Rattle.std.specs.Prelude.{◌≡◌};
ghost use Rattle.searching.specs.Finding.{marked, no_finding};

// A distinguisher: the chosen bits in rising order with zeros past the width, the division of their bin order, the score there, and whether the low bit of a
// byte comes first in its blocks.
#[derive(Clone, Copy)]
pub struct Finding {
    pub block_size: usize,
    pub width: usize,
    pub bits: [u32; 20],
    pub division: u32,
    pub z: f64,
    pub low_first: bool,
}

// The finding in this bit order.
pub fn marked(finding: Finding, low_first: bool) -> Finding
    ensures { result ≡ marked low_first finding }
{
    Finding {
        low_first,
        ..finding
    }
}

// What stands beside a refusal: every field 0, which is the high bit first.
pub fn no_finding() -> Finding
    ensures { result ≡ no_finding }
{
    Finding {
        block_size: 0,
        width: 0,
        bits: [0; 20],
        division: 0,
        z: 0.0,
        low_first: false,
    }
}
