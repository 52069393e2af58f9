// Small functions on numbers and flags.
#![tactic(auto)]

ghost use Rattle.std.specs.Prelude.{◌≡◌, ◌||◌, ℕ, ◌<◌, ◌≤◌, min, max, eqb};
ghost use Rattle.numbers.specs.Numbers.{pick, bit, flag_at, distance, next, counted};

// `a` where the flag is set, else `b`.
pub fn pick<T: Copy>(c: bool, a: T, b: T) -> T
    ensures { result ≡ pick c a b }
{
    if c { a } else { b }
}

// The bound lets a caller's sum of bits fit without a proof of its own.
pub fn bit(c: bool, w: u8) -> u8
    ensures value { result ≡ bit c w }
    ensures bound { result ≤ w }
{
    pick(c, w, 0)
}

// Whether flag `i` is set.
pub fn flag(flags: u64, i: usize) -> bool
    requires { i < 64 }
    ensures { result ≡ flag_at flags i }
{
    (flags >> i) & 1 == 1
}

// The flags with flag `i` set too.
pub fn with_flag(flags: u64, i: usize) -> u64
    requires { i < 64 }
    ensures { (j : ℕ) → flag_at result j ≡ (eqb i j || flag_at flags j) }
{
    flags | (1 << i)
}

pub fn distance(a: u8, b: u8) -> u8
    ensures { result ≡ distance a b }
{
    a.abs_diff(b)
}

// A count that stops at 65,535.
pub fn next(n: u16) -> u16
    ensures { result ≡ next n }
{
    n.saturating_add(1)
}

// A count that stops at 4,294,967,295.
pub fn counted(count: u32, n: u8) -> u32
    ensures { result ≡ counted count n }
{
    count.saturating_add(n as u32)
}
