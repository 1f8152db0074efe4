// The powers of one half up to the twentieth, and the shares made of them.
ghost use Rattle.std.specs.Prelude.{◌≡◌, ◌≤◌};
ghost use Rattle.scoring.specs.Halves.{half_power, part};

// 2 ^ -k at k, the width.
const HALVES: [f64; 21] = [
    1.0,
    0.5,
    0.25,
    0.125,
    0.0625,
    0.03125,
    0.015625,
    0.0078125,
    0.00390625,
    0.001953125,
    0.0009765625,
    0.00048828125,
    0.000244140625,
    0.0001220703125,
    0.00006103515625,
    0.000030517578125,
    0.0000152587890625,
    0.00000762939453125,
    0.000003814697265625,
    0.0000019073486328125,
    0.00000095367431640625,
];

pub fn half_power(k: usize) -> f64
    requires { k ≤ 20 }
    ensures { result ≡ half_power k }
{
    HALVES[k]
}

// i / 2 ^ k, exactly.
pub fn share(i: u32, k: usize) -> f64
    requires { k ≤ 20 }
    ensures { result ≡ part i k }
{
    share_by(i, half_power(k), k)
}

// The same from 2 ^ -k, for a loop over i: each look at the table writes it anew.
pub fn share_by(i: u32, half: f64, k: usize) -> f64
    requires { (k ≤ 20) × (half ≡ half_power k) }
    ensures { result ≡ part i k }
{
    i as f64 * half
}
