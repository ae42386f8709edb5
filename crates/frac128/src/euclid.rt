// Euclid's algorithm, and comparisons of quotients that form no product of more than 128 bits.
ghost use Rattle.std.specs.Prelude.{◌≡◌, ◌<◌, ◌*◌, ◌/◌, ◌%◌, ◌*ℤ◌, pos};
ghost use Rattle.std.specs.Ordering.{nat_cmp, int_cmp};
ghost use Rattle.rational.specs.Gcd.{gcd as gcd_of};

use std::cmp::Ordering;

/// The greatest number of 64 bits.
pub(crate) const MOST_64_BITS: u128 = 18446744073709551615;

// The greatest common divisor, by steps on 64 bits.
fn gcd_64(a: u64, b: u64) -> u64
    ensures { result ≡ gcd_of a b }
{
    let mut x = a;
    let mut y = b;
    while y != 0 {
        let rest = x % y;
        x = y;
        y = rest;
    }
    x
}

/// The greatest common divisor, and 0 for 0 and 0. Steps on 128 bits are taken only until both
/// numbers fit 64.
pub fn gcd(a: u128, b: u128) -> u128
    ensures { result ≡ gcd_of a b }
{
    if a == b {
        return a;
    }
    if a == 1 || b == 1 {
        return 1;
    }
    let mut x = a;
    let mut y = b;
    while x > MOST_64_BITS || y > MOST_64_BITS {
        if y == 0 {
            return x;
        }
        let rest = x % y;
        x = y;
        y = rest;
    }
    gcd_64(x as u64, y as u64) as u128
}

// The whole part of n / d. A division of 128 bits is made only where a part does not fit 64.
pub(crate) fn divided(n: u128, d: u128) -> u128
    requires { 0 < d }
    ensures { result ≡ n / d }
{
    if d == 1 {
        n
    } else if n <= MOST_64_BITS && d <= MOST_64_BITS {
        (n as u64 / d as u64) as u128
    } else {
        n / d
    }
}

// The rest of n / d, by its whole part.
fn rest_of(n: u128, d: u128, whole: u128) -> u128
    requires { whole ≡ n / d }
    ensures { result ≡ n % d }
{
    n - whole * d
}

// The order of a / b and c / d: that of the whole parts, then that of the rests, upside down.
fn cmp_quotients(a: u128, b: u128, c: u128, d: u128) -> Ordering
    requires left { 0 < b }
    requires right { 0 < d }
    ensures { result ≡ nat_cmp (a * d) (c * b) }
{
    let q = divided(a, b);
    let r = divided(c, d);
    if q < r {
        return Ordering::Less;
    }
    if r < q {
        return Ordering::Greater;
    }
    let x = rest_of(a, b, q);
    let y = rest_of(c, d, r);
    if x == 0 {
        if y == 0 {
            Ordering::Equal
        } else {
            Ordering::Less
        }
    } else if y == 0 {
        Ordering::Greater
    } else {
        cmp_quotients(d, y, b, x)
    }
}

/// The order of n / b and m / d, whose numerators may be negative. No product of more than 128 bits
/// is made.
pub fn cmp_signed_quotients(n: i128, b: u128, m: i128, d: u128) -> Ordering
    requires left { 0 < b }
    requires right { 0 < d }
    ensures { result ≡ int_cmp (n *ℤ pos d) (m *ℤ pos b) }
{
    if n < 0 {
        if m < 0 {
            cmp_quotients(m.unsigned_abs(), d, n.unsigned_abs(), b)
        } else {
            Ordering::Less
        }
    } else if m < 0 {
        Ordering::Greater
    } else {
        cmp_quotients(n.unsigned_abs(), b, m.unsigned_abs(), d)
    }
}
