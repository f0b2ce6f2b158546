//! A trie that finds the place of a key by the digits of the key, in base 16.
//!
//! A node sorts the keys below it by one digit, and keys below it are equal in all higher digits. A new node has two links.
//! Nodes are in one list, and keys in another. A walk from the root for a key ends at the link of the place of the key.

ghost use Rattle.std.specs.Prelude.{◌≡◌, ℕ, ◌+◌, ◌-◌, ◌*◌, ◌/◌, ◌%◌, ◌^◌, ◌<◌, ◌≤◌, ◌≢◌, ◌++◌, [], ◌∷◌, length, MatchOption, slice_index, IfOk, OnOk, OnErr, vec_len, slice_set, take};
ghost use Rattle.std.specs.Vec.{vec_capacity};
ghost use Rattle.chunk_map.specs.Trie.{IsTrie, IsAbsent, IsAt, IsForest, IsLower, IsEnd, IsShift, IsNode, Parts, Holds, Branches, base_of, top_of, node_at, relinked, new_root, marked, IsPartial, without_place};

use std::alloc::AllocError;

// A node of the trie: a link per digit of a key. A link is 0 for none, 2 c + 1 for node c, and 2 p + 2 for the key at place p.
// Keys below a node have the digits of `base` above the digit at `shift`. Bit d of `used` says whether there is a link for digit d.
#[derive(Clone, Copy, Debug)]
pub(crate) struct Node {
    pub(crate) links: [u32; 16],
    pub(crate) base: usize,
    pub(crate) shift: u32,
    pub(crate) used: u32,
}

// Where the walk for a key ends: at a link, which is in the node of the link `owner`, or is the root if that is 0.
#[derive(Clone, Copy, Debug)]
pub(crate) struct End {
    pub(crate) owner: u32,
    pub(crate) link: u32,
}

// The most keys or nodes: a link fits `u32`.
const LIMIT: usize = 0x7fff_ffff;

// Returns the place of a key, if there is one.
#[inline]
pub(crate) fn find(nodes: &[Node], keys: &[usize], root: u32, key: usize) -> Option<usize>
    requires { IsTrie nodes.now keys.now root }
    ensures { MatchOption result (IsAbsent keys.now key) (IsAt keys.now key) }
{
    let mut link = root as usize;
    while link % 2 == 1 {
        let node = &nodes[link / 2];
        link = node.links[(key >> node.shift) % 16] as usize;
    }
    if link == 0 {
        return None;
    }
    let place = link / 2 - 1;
    if keys[place] == key {
        Some(place)
    } else {
        None
    }
}

// Returns where the walk for a key ends.
pub(crate) fn seek(nodes: &[Node], root: u32, key: usize) -> End
    requires forest { IsForest nodes.now }
    requires root { root % 2 ≡ 1 → root / 2 < length nodes.now }
    ensures { IsEnd nodes.now root key result.owner result.link }
{
    let mut owner = 0;
    let mut link = root;
    while link % 2 == 1 {
        let node = &nodes[link as usize / 2];
        let prefix = key >> node.shift;
        if prefix / 16 != (node.base >> node.shift) / 16 {
            return End { owner, link };
        }
        owner = link;
        link = node.links[prefix % 16];
    }
    End { owner, link }
}

// Returns the shift of the highest digit by which two keys differ. It is at least `from`.
fn parting(a: usize, b: usize, from: u32) -> u32
    requires shift { IsShift from }
    requires apart { a / 2 ^ from ≢ b / 2 ^ from }
    ensures parts { Parts a b result }
    ensures from { from ≤ result }
{
    let mut shift = from;
    while (a >> shift) / 16 != (b >> shift) / 16 {
        shift += 4;
    }
    shift
}

// Returns the base of a link, and the shift from which all keys below the link have its digits.
fn base_and_top(nodes: &[Node], keys: &[usize], link: u32) -> (usize, u32)
    requires node { link % 2 ≡ 1 → link / 2 < length nodes.now }
    requires place { link % 2 ≡ 0 → link / 2 ≤ length keys.now }
    requires some { 0 < link }
    requires fits { link % 2 ≡ 1 → IsShift (node_at nodes.now (link / 2)).shift }
    ensures base { result.0 ≡ base_of nodes.now keys.now link (link % 2) }
    ensures top { result.1 ≡ top_of nodes.now link (link % 2) }
    ensures bound { result.0 < 2 ^ 64 }
{
    let at = link as usize / 2;
    if link % 2 == 1 {
        let node = &nodes[at];
        (node.base, node.shift + 4)
    } else {
        (keys[at - 1], 0)
    }
}

// Returns the bits of the digits of a node after the link for a digit was replaced.
#[inline]
fn mark(used: u32, digit: usize, link: u32) -> u32
    requires { digit < 16 }
    ensures { result ≡ marked used digit link }
{
    if link == 0 {
        used & !(1 << digit)
    } else {
        used | 1 << digit
    }
}

// Appends a node with a link and the one of a new key, `leaf`. Returns the link of the node.
fn branch(
    nodes: &mut Vec<Node>,
    keys: &[usize],
    link: u32,
    key: usize,
    leaf: u32,
) -> Result<u32, AllocError>
    requires few { length nodes.old.items < 2147483647 }
    requires node { link % 2 ≡ 1 → link / 2 < length nodes.old.items }
    requires place { link % 2 ≡ 0 → link / 2 ≤ length keys.now }
    requires some { 0 < link }
    requires fits { link % 2 ≡ 1 → IsShift (node_at nodes.old.items (link / 2)).shift }
    requires stops { link % 2 ≡ 1 → Holds (node_at nodes.old.items (link / 2)) key → ⊥ }
    requires other { link % 2 ≡ 0 → slice_index keys.now (link / 2 - 1) ≢ key }
    ensures branches { OnOk result
        (Branches nodes.old.items nodes.new.items keys.now link key leaf) }
    ensures link { IfOk result (λ l. l ≡ 2 * length nodes.old.items + 1) }
    ensures err { OnErr result (nodes.new.items ≡ nodes.old.items) }
{
    let (base, top) = base_and_top(nodes, keys, link);
    let shift = parting(base, key, top);
    let low = (base >> shift) % 16;
    let high = (key >> shift) % 16;
    let mut links = [0; 16];
    links[low] = link;
    links[high] = leaf;
    let new = 2 * nodes.len() as u32 + 1;
    let node = Node {
        links,
        base: key,
        shift,
        used: mark(mark(0, low, link), high, leaf),
    };
    nodes.push(node)?;
    Ok(new)
}

// Replaces the link for a key in the node of the link `owner`, or the root if that is 0.
fn put_link(nodes: &mut Vec<Node>, root: &mut u32, owner: u32, key: usize, link: u32)
    requires within { 0 < owner → owner / 2 < length nodes.old.items }
    requires size { 0 < owner → length (node_at nodes.old.items (owner / 2)).links ≡ 16 }
    requires shift { 0 < owner → IsShift (node_at nodes.old.items (owner / 2)).shift }
    ensures nodes { nodes.new.items ≡ relinked nodes.old.items owner key link }
    ensures root { root.new ≡ new_root root.old owner link }
{
    if owner == 0 {
        *root = link;
    } else {
        let node = &mut nodes[owner as usize / 2];
        let digit = (key >> node.shift) % 16;
        node.links[digit] = link;
        node.used = mark(node.used, digit, link);
    }
}

// Appends a key, for which space is reserved.
fn push_key(keys: &mut Vec<usize>, key: usize)
    requires { vec_len keys.old < vec_capacity keys.old }
    ensures { keys.new.items ≡ keys.old.items ++ key ∷ [] }
{
    let _ = keys.push(key);
}

// Adds a key below a link that is 0.
fn add_leaf(
    nodes: &mut Vec<Node>,
    keys: &mut Vec<usize>,
    root: &mut u32,
    key: usize,
    owner: u32,
) -> Result<(), AllocError>
    requires trie { IsTrie nodes.old.items keys.old.items root.old }
    requires end { IsEnd nodes.old.items root.old key owner 0 }
    requires few { length keys.old.items < 2147483647 }
    ensures trie { IsTrie nodes.new.items keys.new.items root.new }
    ensures ok { OnOk result (keys.new.items ≡ keys.old.items ++ key ∷ []) }
    ensures err { OnErr result (keys.new.items ≡ keys.old.items) }
{
    let leaf = 2 * keys.len() as u32 + 2;
    keys.push(key)?;
    put_link(nodes, root, owner, key, leaf);
    Ok(())
}

// Adds a key that is not below the link where its walk ends.
fn add_branch(
    nodes: &mut Vec<Node>,
    keys: &mut Vec<usize>,
    root: &mut u32,
    key: usize,
    end: End,
) -> Result<(), AllocError>
    requires trie { IsTrie nodes.old.items keys.old.items root.old }
    requires end { IsEnd nodes.old.items root.old key end.owner end.link }
    requires some { 0 < end.link }
    requires absent { IsAbsent keys.old.items key }
    requires few { length keys.old.items < 2147483647 }
    requires few_nodes { length nodes.old.items < 2147483647 }
    ensures trie { IsTrie nodes.new.items keys.new.items root.new }
    ensures ok { OnOk result (keys.new.items ≡ keys.old.items ++ key ∷ []) }
    ensures err { OnErr result (keys.new.items ≡ keys.old.items) }
{
    let leaf = 2 * keys.len() as u32 + 2;
    keys.reserve(1)?;
    let new = branch(nodes, keys, end.link, key, leaf)?;
    push_key(keys, key);
    put_link(nodes, root, end.owner, key, new);
    Ok(())
}

// Adds a key at the next place. Fails too if there are 2 ^ 31 - 1 keys or nodes.
pub(crate) fn insert(
    nodes: &mut Vec<Node>,
    keys: &mut Vec<usize>,
    root: &mut u32,
    key: usize,
) -> Result<(), AllocError>
    requires trie { IsTrie nodes.old.items keys.old.items root.old }
    requires absent { IsAbsent keys.old.items key }
    ensures trie { IsTrie nodes.new.items keys.new.items root.new }
    ensures ok { OnOk result (keys.new.items ≡ keys.old.items ++ key ∷ []) }
    ensures err { OnErr result (keys.new.items ≡ keys.old.items) }
{
    if keys.len() >= LIMIT || nodes.len() >= LIMIT {
        return Err(AllocError);
    }
    let end = seek(nodes, *root, key);
    if end.link == 0 {
        return add_leaf(nodes, keys, root, key, end.owner);
    }
    add_branch(nodes, keys, root, key, end)
}

// Replaces the link of a place by 0. Returns the link.
fn take_link(nodes: &mut Vec<Node>, keys: &[usize], root: &mut u32, place: usize) -> u32
    requires trie { IsTrie nodes.old.items keys.now root.old }
    requires within { place < length keys.now }
    ensures partial { IsPartial nodes.new.items keys.now root.new place }
    ensures link { result ≡ 2 * place + 2 }
{
    let end = seek(nodes, *root, keys[place]);
    put_link(nodes, root, end.owner, keys[place], 0);
    end.link
}

// Moves the last key to a place whose link was replaced by 0.
fn move_last(nodes: &mut Vec<Node>, keys: &mut Vec<usize>, root: &mut u32, place: usize, link: u32)
    requires partial { IsPartial nodes.old.items keys.old.items root.old place }
    requires within { place + 1 < length keys.old.items }
    requires link { link ≡ 2 * place + 2 }
    ensures partial { IsPartial nodes.new.items keys.new.items root.new
        (length keys.old.items - 1) }
    ensures keys { keys.new.items
        ≡ slice_set keys.old.items place (slice_index keys.old.items (length keys.old.items - 1)) }
{
    let last = keys.len() - 1;
    let key = keys[last];
    let end = seek(nodes, *root, key);
    put_link(nodes, root, end.owner, key, link);
    keys[place] = key;
}

// Drops the last key.
fn drop_last(keys: &mut Vec<usize>)
    ensures { keys.new.items ≡ take (length keys.old.items - 1) keys.old.items }
{
    let _ = keys.pop();
}

// Removes the key at a place. The last key takes its place. Does not allocate.
pub(crate) fn remove(nodes: &mut Vec<Node>, keys: &mut Vec<usize>, root: &mut u32, place: usize)
    requires trie { IsTrie nodes.old.items keys.old.items root.old }
    requires within { place < length keys.old.items }
    ensures trie { IsTrie nodes.new.items keys.new.items root.new }
    ensures keys { keys.new.items ≡ without_place keys.old.items place 0 }
{
    let link = take_link(nodes, keys, root, place);
    if place == keys.len() - 1 {
        drop_last(keys);
        return;
    }
    move_last(nodes, keys, root, place, link);
    drop_last(keys);
}
