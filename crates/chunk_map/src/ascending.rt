//! The keys of a trie in ascending order.

ghost use Rattle.std.specs.Prelude.{ℕ, OnOk};
ghost use Rattle.chunk_map.specs.Ascending.{AppendsKeys};
ghost use Rattle.chunk_map.specs.Trie.{IsRoot, IsTrie};

use crate::next::next_digit;
use crate::trie::Node;
use std::alloc::AllocError;

// Appends the keys that a link leads to, ascending. Allocates if there is no capacity for them. At most 17 calls are nested.
pub(crate) fn append_keys(
    nodes: &[Node],
    keys: &[usize],
    link: u32,
    out: &mut Vec<usize>,
) -> Result<(), AllocError>
    requires trie { (root : ℕ) × IsTrie nodes.now keys.now root }
    requires link { IsRoot nodes.now keys.now link }
    ensures { OnOk result (AppendsKeys nodes.now keys.now link out.old.items out.new.items) }
{
    if link == 0 {
        return Ok(());
    }
    if link % 2 == 0 {
        out.push(keys[link as usize / 2 - 1])?;
        return Ok(());
    }
    let node = &nodes[link as usize / 2];
    let mut digit = next_digit(node, 0);
    while digit < 16 {
        append_keys(nodes, keys, node.links[digit], out)?;
        digit = next_digit(node, digit + 1);
    }
    Ok(())
}
