//! Laws of trees, for every hash. A law is the contract of a function whose body is empty.

ghost use Rattle.std.specs.Prelude.{ℕ, List};
ghost use Rattle.authenticated_bitmap.specs.Tree.{BindsLeaves, BindsTrees, CollidesSomewhere, IsHash, ShowsLeaves, SplitsAtPower};

/// The tree is that of RFC 9162, section 2.1: the digest of no leaves is that of no bytes, the
/// digest of one leaf is the digest of the byte 0 and the leaf, and more leaves are split at the
/// largest power of two that is smaller than their number.
pub fn tree_splits_at_the_largest_power()
    ensures { (H : List ℕ → List ℕ) → SplitsAtPower H }
{}

/// The digest of the tree is what is recomputed from the digest of any leaf and its audit path.
pub fn paths_show_their_leaves()
    ensures { (H : List ℕ → List ℕ) → ShowsLeaves H }
{}

/// A digest binds its leaves. If two leaves lead to one digest, at one place of trees of one size,
/// they are equal, or two different inputs with one digest are given: one that is hashed for the
/// one leaf and its path, and one that is hashed for the other. If a leaf leads to the digest of a
/// tree, it is the leaf of the tree at that place, or an input of the path and one of the tree
/// collide.
///
/// It matters that the two inputs are among those that are hashed. By [`each_hash_collides`] each
/// hash has some two inputs with one digest, so a law that gave just any two would hold of all
/// leaves.
pub fn digests_bind_their_leaves()
    ensures leaves { (H : List ℕ → List ℕ) → IsHash H → BindsLeaves H }
    ensures trees { (H : List ℕ → List ℕ) → IsHash H → BindsTrees H }
{}

/// Each hash has two different inputs with one digest, since its digests are fewer than its inputs.
///
/// So no hash meets the premise that there are none, and a law that gives two such inputs says
/// nothing unless it says which: those of [`digests_bind_their_leaves`] are hashed for the leaf and
/// the tree.
pub fn each_hash_collides()
    ensures { (H : List ℕ → List ℕ) → IsHash H → CollidesSomewhere H }
{}
