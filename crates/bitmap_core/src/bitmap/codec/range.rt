//! Ranges of lengths that a read admits.

ghost use Rattle.std.specs.Prelude.{◌≡◌, ℕ, ◌^◌, ◌<◌, ◌==◌, ◌&&◌, true, nat_le};
ghost use Rattle.bitmap_core.specs.Decoding.{admits};

/// The lengths that a read admits, in bits. For a bitmap with a pruned prefix, only retained bits count.
///
/// The head of the module `codec` has an example.
#[derive(Clone, Copy, Debug, PartialEq, Eq, Drop)]
pub struct RangeCfg {
    low: u64,
    high: u64,
}

impl RangeCfg {
    /// Admits every length.
    ///
    /// Does not allocate; constant time.
    pub fn any() -> Self
        ensures { (k : ℕ) → k < 2 ^ 64 → admits result k ≡ true }
    {
        RangeCfg::between(0, u64::MAX)
    }

    /// Admits only the length `n`.
    ///
    /// Does not allocate; constant time.
    pub fn exact(n: u64) -> Self
        ensures { (k : ℕ) → admits result k ≡ (k == n) }
    {
        RangeCfg::between(n, n)
    }

    /// Admits the lengths from `n` on, `n` included.
    ///
    /// Does not allocate; constant time.
    pub fn at_least(n: u64) -> Self
        ensures { (k : ℕ) → k < 2 ^ 64 → admits result k ≡ nat_le n k }
    {
        RangeCfg::between(n, u64::MAX)
    }

    /// Admits the lengths up to `n`, `n` included.
    ///
    /// Does not allocate; constant time.
    pub fn at_most(n: u64) -> Self
        ensures { (k : ℕ) → admits result k ≡ nat_le k n }
    {
        RangeCfg::between(0, n)
    }

    /// Admits the lengths from `a` to `b`, both included. If `a > b`, it admits none.
    ///
    /// Does not allocate; constant time.
    pub fn between(a: u64, b: u64) -> Self
        ensures { (k : ℕ) → admits result k ≡ (nat_le a k && nat_le k b) }
    {
        RangeCfg { low: a, high: b }
    }

    /// Returns whether the range admits a length of `n` bits.
    ///
    /// Does not allocate; constant time.
    pub fn contains(&self, n: u64) -> bool
        ensures { result ≡ admits self.now n }
    {
        self.low <= n && n <= self.high
    }
}
