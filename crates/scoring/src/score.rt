// How far a count lies from its share, in standard deviations.
ghost use Rattle.std.specs.Prelude.{◌≡◌};
ghost use Rattle.scoring.specs.Score as Score;

use crate::root::root;

// root(p * (1 - p) * n), products from the left. It depends on n and p alone, so a search works it out once for each share.
pub fn deviation(n: u32, p: f64) -> f64
    ensures { result ≡ Score.deviation n p }
{
    root(p * (1.0 - p) * (n as f64))
}

// (c - p * n) / deviation
pub fn z_over(n: u32, c: u32, p: f64, deviation: f64) -> f64
    ensures { result ≡ Score.z_over n c p deviation }
{
    (c as f64 - p * (n as f64)) / deviation
}

// The score of c of n blocks at the share p, its sign kept.
pub fn z_score(n: u32, c: u32, p: f64) -> f64
    ensures { result ≡ Score.z_score n c p }
{
    z_over(n, c, p, deviation(n, p))
}

// |z|; also of -0.0, which `if z < 0.0 { -z } else { z }` would leave.
pub fn absolute(z: f64) -> f64
    ensures { result ≡ Score.abs z }
{
    z.abs()
}
