// Whole numbers for the account table: the natural and the negative part of an i64, sums and differences.
#![tactic(auto)]

ghost use Rattle.std.specs.Prelude.{ℕ, Bool, ◌≡◌, ◌+◌, ◌^◌, ◌<◌, ◌≤◌, pos, ◌+ℤ◌, ◌-ℤ◌};
ghost use Rattle.std.specs.Int.Signed.{le_z};
ghost use Rattle.numbers.specs.Below.{all_below};
ghost use Rattle.numbers.specs.Whole.{plus, minus, same_ℤ, within_ℤ};

// Kept: the new form is no plainer: std has no clause by the natural and the negative part, nor one that names these tests.

// The natural part of `z`: `z` itself, and 0 where it is negative.
pub fn natural(z: i64) -> u64
    ensures { result ≡ plus z }
{
    if z < 0 { 0 } else { z as u64 }
}

// `z` as a natural number, where it is not negative.
pub fn unsigned(z: i64) -> u64
    requires { minus z ≡ 0 }
    ensures { result ≡ plus z }
{
    z as u64
}

// The negative part of `z`: its size where it is negative, and else 0.
pub fn negative(z: i64) -> u64
    ensures { result ≡ minus z }
{
    if z < 0 { z.unsigned_abs() } else { 0 }
}

// `n` as a whole number.
pub fn whole(n: u64) -> i64
    requires { n < 2 ^ 63 }
    ensures { result ≡ pos n }
{
    n as i64
}

// `z` and `by` together, where the sum is an i64.
pub fn raised(z: i64, by: u64) -> i64
    requires { (plus z + by < 2 ^ 63) × (by < 2 ^ 63) }
    ensures { result ≡ z +ℤ pos by }
{
    z + by as i64
}

// `z` less `by`, where the difference is an i64.
pub fn lowered(z: i64, by: u64) -> i64
    requires { (minus z + by ≤ 2 ^ 63) × (by < 2 ^ 63) }
    ensures { result ≡ z -ℤ pos by }
{
    z - by as i64
}

// Whether `a` is at most `b`.
pub fn at_most(a: i64, b: i64) -> bool
    ensures { result ≡ le_z a b }
{
    a <= b
}

// Whether `a` and `b` are the same.
#[tactic(auto, using(crate::proofs::Parts::bits_same))]
pub fn equal(a: i64, b: i64) -> bool
    ensures { result ≡ same_ℤ a b }
{
    a == b
}

// Whether `z` lies between `low` and `high`, both included.
pub fn within(z: i64, low: u64, high: u64) -> bool
    ensures { result ≡ within_ℤ low high z }
{
    if negative(z) > 0 {
        return false;
    }
    let n = natural(z);
    low <= n && n <= high
}

// Whether a test passes at each number below n. Every number is tested, also behind one that fails, so that no test waits for another.
#[tactic(auto, using(crate::proofs::All::all_loop))]
pub fn all_below<F: Fn(usize) -> bool>(n: usize, test: F) -> bool
    requires { (k : ℕ) → k < n → F.pre test k }
    ensures { (p : ℕ → Bool) → ((k : ℕ) (b : Bool) → k < n → F.post test k b → b ≡ p k) → result ≡ all_below n p }
{
    let mut ok = true;
    for k in 0..n {
        ok = ok & test(k);
    }
    ok
}
