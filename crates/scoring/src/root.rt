// The root of a double, correctly rounded, worked out in 64-bit integers.
ghost use Rattle.std.specs.Prelude.{◌≡◌, ℕ, ◌+◌, ◌*◌, ◌<◌, ◌≤◌, ◌^◌};
ghost use Rattle.scoring.specs.Root as Root;
ghost use Rattle.scoring.specs.Units.{root_of};
ghost use Rattle.scoring.specs.Whole.{Within, Step};

// A nearer t for the root of a, which lies in t .. t + e: where the chord of the squares between those two meets a. That is never past the root.
fn nearer(a: u64, t: u64, e: u64) -> u64
    requires { Within a t e × (1 ≤ t) × (t + e ≤ 2 ^ 28) }
    ensures { (t ≤ result) × ((f : ℕ) → e * e ≤ 4 * f * (2 * t + e) → Within a result (f + 1)) }
{
    t + (a - t * t) / (2 * t + e)
}

// The whole part of a root from a t near below it: q is right, or one too many.
fn settled(t: u64, q: u64, u: u64) -> u64
    requires { (t < 2 ^ 54) × (q < 2 ^ 32) }
    ensures { (n p : ℕ) → Step n t p q u → Within n result 1 }
{
    if q * q <= u {
        return t + q;
    }
    t + q - 1
}

// A first t, less than 2 ^ 21 below the root, from the chord of half of a's range: 94906265 is the root of 2 ^ 53.
fn first_guess(a: u64) -> u64
    requires { (2 ^ 52 ≤ a) × (a < 2 ^ 54) }
    ensures { Within a result (2 ^ 21) × (2 ^ 26 ≤ result) }
{
    if a < 9007199254740992 {
        return nearer(a, 67108864, 27797402);
    }
    nearer(a, 94906265, 39311463)
}

// The whole part of the root of a. The second chord leaves less than 2 ^ 13, near enough for the step.
fn whole_root(a: u64) -> u64
    requires { (2 ^ 52 ≤ a) × (a < 2 ^ 54) }
    ensures { Within a result 1 × (2 ^ 26 ≤ result) × (result < 2 ^ 27) }
{
    let t = nearer(a, first_guess(a), 2097152);
    let d = a - t * t;
    settled(t, d / (2 * t), d % (2 * t))
}

// The whole part of the root of a * 2 ^ 54: to the 27 digits s of the root of a come 27 more in one step, from s * 2 ^ 27.
fn root_digits(a: u64) -> u64
    requires { (2 ^ 52 ≤ a) × (a < 2 ^ 54) }
    ensures { Within (a * 2 ^ 54) result 1 × (result < 2 ^ 54) }
{
    let s = whole_root(a);
    let d = (a - s * s) * 67108864;
    settled(s * 134217728, d / s, d % s * 268435456)
}

// The double nearest the root of m * 2 ^ e / 2 ^ 1022 units, for an m of 53 digits. The root's 54th digit says which way to round: a root of so many digits is never halfway.
fn normal_root(m: u64, e: u64) -> f64
    requires { (2 ^ 52 ≤ m) × (m < 2 ^ 53) × (e < 3068) }
    ensures { (X : ℕ) → X * 2 ^ 1022 ≡ m * 2 ^ e → result ≡ root_of X }
{
    let mut a = m;
    if e % 2 == 1 {
        a = m * 2;
    }
    let q = (root_digits(a) + 1) / 2;
    f64::from_bits(e / 2 * 4503599627370496 + q)
}

// The same for an m of any number of digits up to 53, as a subnormal double has.
fn positive_root(m0: u64, e0: u64) -> f64
    requires { (1 ≤ m0) × (m0 < 2 ^ 53) × (1022 ≤ e0) × (e0 < 3068) }
    ensures { (X : ℕ) → X * 2 ^ 1022 ≡ m0 * 2 ^ e0 → result ≡ root_of X }
{
    let mut m = m0;
    let mut e = e0;
    // Kept: the step is a doubling, not a count.
    while m < 4503599627370496 {
        m = m * 2;
        e = e - 1;
    }
    normal_root(m, e)
}

// The double nearest the root of x. A zero, +infinity and NaN are their own roots, and what is below zero has NaN.
pub fn root(x: f64) -> f64
    ensures { result ≡ Root.root x }
{
    if x.is_nan() {
        return x;
    }
    let b = f64::to_bits(x);
    if b == 0 {
        return x;
    }
    if b == 9223372036854775808 {
        return x;
    }
    if b == 9218868437227405312 {
        return x;
    }
    if 9223372036854775808 < b {
        return f64::NAN;
    }
    let f = b / 4503599627370496;
    let t = b % 4503599627370496;
    if f == 0 {
        return positive_root(t, 1022);
    }
    positive_root(t + 4503599627370496, f + 1021)
}
