// IEEE 754 binary64: the square root, worked out on whole numbers, and the ceiling.
#![tactic(auto)]

ghost use Rattle.std.specs.Prelude.{◌≡◌, ◌+◌, ◌*◌, ◌^◌, ◌<◌, ◌≤◌, false, T, pos, from_bits, to_bits};
ghost use Rattle.std.specs.Float.{binary64};
ghost use Rattle.std.specs.Float.Ieee.{of_int, odd};
ghost use Rattle.ieee754.specs.Steps.{Root, Room};
ghost use Rattle.ieee754.specs.Root.{root};
ghost use Rattle.ieee754.specs.Nearest.{nearest_root};
ghost use Rattle.ieee754.specs.Ceil.{ceil};
ghost use Rattle.ieee754.specs.Small.{Small};

const POWER_8: u64 = 1 << 8;

const POWER_16: u64 = 1 << 16;

const POWER_22: u64 = 1 << 22;

const POWER_32: u64 = 1 << 32;
// The weight of the exponent's field: also the leading digit of a normal significand, which the bits leave out.
const HIDDEN_BIT: u64 = 1 << 52;
// The sign's bit.
pub const SIGN_BIT: u64 = 1 << 63;
// The bits of positive infinity.
pub const INFINITY: u64 = 2047 << 52;

// The first eight digits: the whole root of n, by halving. (`isqrt` makes a root take half as long again.)
fn first_digits(n: u64) -> u64
    requires { (2 ^ 14 ≤ n) × (n < 2 ^ 16) }
    ensures { Root n result }
{
    let mut low: u64 = 128;
    let mut high: u64 = 256;
    while low + 1 < high {
        let middle = (low + high) / 2;
        if middle * middle <= n {
            low = middle;
        } else {
            high = middle;
        }
    }
    low
}

// More digits: from the whole root s of h to that of h followed by the digits a and c to the base b.
// One division, and at most one correction.
fn more_digits(h: u64, s: u64, b: u64, a: u64, c: u64) -> u64
    requires root { Root h s }
    requires room { Room s b a c }
    ensures { Root (h * (b * b) + a * b + c) result }
{
    let d = 2 * s;
    let t = (h - s * s) * b + a;
    let q = t / d;
    let u = t % d;
    let n = s * b + q;
    if u * b + c < q * q { n - 1 } else { n }
}

// The 54 digits of the root of h * 2^44, h of 63 or 64 binary digits: first 8, then 16, 32, 54.
fn all_digits(h: u64) -> u64
    requires { 2 ^ 62 ≤ h }
    ensures { Root (h * 2 ^ 44) result }
{
    let m = h / POWER_32;
    let n = m / POWER_16;
    let s8 = first_digits(n);
    let s16 = more_digits(n, s8, POWER_8, m / POWER_8 % POWER_8, m % POWER_8);
    let s32 = more_digits(m, s16, POWER_16, h / POWER_16 % POWER_16, h % POWER_16);
    more_digits(h, s32, POWER_22, 0, 0)
}

// The bits of the root of m * 2^f units of 2^-1074: m is moved up to 63 or 64 digits, so that an even power of two is left.
// Twice the root lies from s to s + 1 times 2^k units, with 4 * m * 2^f * 2^1074 = (m << moved) * 2^44 * 4^k: so 2 * k is f + 1032 - moved.
fn root_bits(m: u64, f: u64) -> u64
    requires { (0 < m) × (m < 2 ^ 53) × (f < 2046) }
    ensures value { result ≡ to_bits binary64 (root (odd 53 false m f 1074)) }
    ensures finite { result < 2047 * 2 ^ 52 }
{
    let zeros = m.leading_zeros() as u64;
    let moved = zeros - (zeros + f) % 2;
    let s = all_digits(m << moved);
    (f + 1032 - moved) / 2 * HIDDEN_BIT + (s + 1) / 2
}

// The root of a positive finite float, from its bits.
fn positive_root(bits: u64) -> f64
    requires { (0 < bits) × (bits < 2047 * 2 ^ 52) }
    ensures { result ≡ root (from_bits binary64 bits) }
{
    let field = bits / HIDDEN_BIT;
    let digits = bits % HIDDEN_BIT;
    if field == 0 {
        f64::from_bits(root_bits(digits, 0))
    } else {
        f64::from_bits(root_bits(HIDDEN_BIT + digits, field - 1))
    }
}

// The square root, rounded to nearest: NaN of NaN and of what is below zero, zeros and positive infinity themselves.
pub fn root(x: f64) -> f64
    ensures { result ≡ root x }
{
    if x.is_nan() {
        return x;
    }
    let bits = x.to_bits();
    if bits % SIGN_BIT == 0 {
        return x;
    }
    if bits >= SIGN_BIT {
        return f64::NAN;
    }
    if bits >= INFINITY {
        return x;
    }
    positive_root(bits)
}

// The roots of 1, 2, 3 and 4.
const ROOTS: [f64; 4] = [1.0, 1.4142135623730951, 1.7320508075688772, 2.0];

// The root of a whole number from 1 to 4, and that no float lies nearer.
pub fn root_of_small(n: usize) -> f64
    requires { (1 ≤ n) × (n ≤ 4) }
    ensures value { result ≡ root (of_int binary64 (pos n)) }
    ensures nearest { T (nearest_root n result) }
{
    ROOTS[n - 1]
}

// The ceiling of x, which is below 2^40 in size.
pub fn ceiling(x: f64) -> i64
    requires { Small x }
    ensures { result ≡ ceil x }
{
    let cut = std::num::truncating_f64_to_i64(x);
    let back = cut as f64;
    if back < x { cut + 1 } else { cut }
}
