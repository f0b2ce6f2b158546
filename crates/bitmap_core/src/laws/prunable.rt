//! Laws of the edits of a bitmap with a pruned prefix, position by position.

ghost use Rattle.std.specs.Prelude.{◌≡◌, ℕ, ◌+◌, ◌-◌, ◌*◌, ◌<◌, ◌≤◌, Bool, false, List, length, map, nat_lt, ◌==◌, if◌then◌else◌};
ghost use Rattle.std.specs.List.{range_with_len};
ghost use Rattle.bitmap_core.specs.PrunedBits.{PrunedBits, IsRetained, appended, bit_at, bit_len, chunk, extended, from_bits, popped, pruned_bits, pruned_to, pushed, set_at, truncated, unpruned};

/// A bitmap is determined by its number of pruned chunks, its length and its retained bits by position.
pub fn fixed_by_positions()
    ensures { (n : ℕ) (b : PrunedBits) (bit : ℕ → Bool)
        → ((k : ℕ) → IsRetained n b k → bit k ≡ bit_at n b k)
        → from_bits n b.pruned (bit_len n b) bit ≡ b }
{}

/// A push adds one bit at the end, and changes no other bit.
pub fn push_by_position()
    ensures len { (n : ℕ) (b : PrunedBits) (x : Bool) → bit_len n (pushed b x) ≡ bit_len n b + 1 }
    ensures bits { (n : ℕ) (b : PrunedBits) (x : Bool) (k : ℕ) → pruned_bits n b ≤ k
        → bit_at n (pushed b x) k ≡ (if k == bit_len n b then x else bit_at n b k) }
{}

/// A set replaces the bit at its position, and changes no other bit.
pub fn set_by_position()
    ensures len { (n : ℕ) (b : PrunedBits) (j : ℕ) (x : Bool)
        → bit_len n (set_at n b j x) ≡ bit_len n b }
    ensures bits { (n : ℕ) (b : PrunedBits) (j : ℕ) (x : Bool) (k : ℕ) → IsRetained n b j
        → pruned_bits n b ≤ k → bit_at n (set_at n b j x) k ≡ (if k == j then x else bit_at n b k) }
{}

/// A truncation keeps the bits below the new length. A pop is a truncation by one bit.
pub fn truncate_by_position()
    ensures pop { (n : ℕ) (b : PrunedBits) → popped b ≡ truncated n b (bit_len n b - 1) }
    ensures len { (n : ℕ) (b : PrunedBits) (len : ℕ) → pruned_bits n b ≤ len → len ≤ bit_len n b
        → bit_len n (truncated n b len) ≡ len }
    ensures bits { (n : ℕ) (b : PrunedBits) (len k : ℕ) → pruned_bits n b ≤ k
        → bit_at n (truncated n b len) k ≡ (if nat_lt k len then bit_at n b k else false) }
{}

/// Appended bits make the bitmap longer by their number. Appended zeros change no bit.
pub fn extend_by_position()
    ensures len { (n : ℕ) (b : PrunedBits) (more : List Bool)
        → bit_len n (appended b more) ≡ bit_len n b + length more }
    ensures zeros { (n : ℕ) (b : PrunedBits) (len k : ℕ)
        → bit_at n (extended n b len) k ≡ bit_at n b k }
{}

/// A prune changes neither the length nor a bit that remains retained. If its chunks are restored, the bitmap is as before.
pub fn prune_by_position()
    ensures len { (n : ℕ) (b : PrunedBits) (i : ℕ) → 8 * n * i ≤ bit_len n b
        → bit_len n (pruned_to n b i) ≡ bit_len n b }
    ensures bits { (n : ℕ) (b : PrunedBits) (i k : ℕ) → b.pruned ≤ i → 8 * n * i ≤ k
        → bit_at n (pruned_to n b i) k ≡ bit_at n b k }
    ensures put_back { (n : ℕ) (b : PrunedBits) (i : ℕ) → 0 < n → b.pruned ≤ i
        → 8 * n * i ≤ bit_len n b
        → unpruned n (pruned_to n b i) (map (chunk n b) (range_with_len b.pruned (i - b.pruned)))
        ≡ b }
{}
