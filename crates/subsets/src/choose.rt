// Binomials, exact up to 2^32.
ghost use Rattle.std.specs.Prelude.{◌≡◌, ◌+◌, ◌≤◌, ◌<◌};
ghost use Rattle.subsets.specs.Choose.{choose_up_to};

// n choose r, for r up to half of n: n choose 0, .., n choose r do not fall, so once one of them is above 2^32 the last is.
fn choose_lower(n: usize, r: usize) -> usize
    requires { (n < 4294967296) × (r + r ≤ n) }
    ensures { result ≡ choose_up_to n r }
{
    let mut c: usize = 1;
    for i in 0..r {
        c = c * (n - i) / (i + 1);
        if c > 4294967296 {
            return 4294967297;
        }
    }
    c
}

// n choose r where that is at most 2^32, and else 2^32 + 1.
// Kept: a usize and its limit, since a u32 would ask more of those who call choose_up_to and coefficient.
pub fn choose_up_to(n: usize, r: usize) -> usize
    requires { n < 4294967296 }
    ensures { result ≡ choose_up_to n r }
{
    if r > n {
        return 0;
    }
    choose_lower(n, r.min(n - r))
}
