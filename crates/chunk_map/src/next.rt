//! The least key at or above a number.

ghost use Rattle.std.specs.Prelude.{◌≡◌, ◌≢◌, ℕ, ◌+◌, ◌-◌, ◌*◌, ◌/◌, ◌%◌, ◌^◌, ◌<◌, ◌≤◌, length, IfSome, MatchOption, slice_index, true};
ghost use Rattle.chunk_map.specs.Trie.{AreMarked, Holds, IsTrie, link_for};
ghost use Rattle.chunk_map.specs.Next.{AreBelow, IsFirstIn, IsNextPlace, IsNoneIn, IsPast, IsSpan, IsStart, IsWalk, StepReports};

use crate::trie::Node;

// What one walk reports of the keys at or above a number: the place of the least, or a number that all are at or above, or that there is none.
#[derive(Clone, Copy, Debug)]
pub(crate) enum Step {
    Found(usize),
    Skip(usize),
    End,
}

// A slot of a node, or the root: its link leads to the keys that have the digits of `at` from the shift `span` on.
#[derive(Clone, Copy, Debug)]
pub(crate) struct Slot {
    pub(crate) at: usize,
    pub(crate) span: u32,
    pub(crate) link: u32,
}

// Returns the first number past those that have the digits of `at` from a shift on.
fn skip(at: usize, span: u32) -> Option<usize>
    requires { IsSpan span }
    ensures { MatchOption result (2 ^ 64 ≤ (at / 2 ^ span + 1) * 2 ^ span)
        (λ past. past ≡ (at / 2 ^ span + 1) * 2 ^ span) }
{
    if span == 64 {
        return None;
    }
    (at >> span).checked_add(1)?.checked_mul(1 << span)
}

// Returns the first digit at or above `from` for which a node has a link, or 16 if there is none.
#[inline]
pub(crate) fn next_digit(node: &Node, from: usize) -> usize
    requires used { AreMarked node.now.links node.now.used }
    requires from { from ≤ 16 }
    ensures from { from ≤ result }
    ensures within { result ≤ 16 }
    ensures some { result < 16 → slice_index node.now.links result ≢ 0 }
    ensures least { (digit : ℕ) → from ≤ digit → digit < result
        → slice_index node.now.links digit ≡ 0 }
{
    let later = (node.used | 0x1_0000) >> from;
    from + later.trailing_zeros() as usize
}

// Returns the first digit of keys below a node that can be at or above a number. `prefix` is the number without its digits below the node's.
fn first_digit(prefix: usize, base: usize) -> usize
    requires { prefix / 16 ≤ base }
    ensures same { prefix / 16 ≡ base → result ≡ prefix % 16 }
    ensures below { prefix / 16 < base → result ≡ 0 }
    ensures within { result < 16 }
{
    if prefix / 16 == base { prefix % 16 } else { 0 }
}

// Returns the first number at or above `at` which a node has a link for, if there is one.
#[inline]
fn enter(node: &Node, at: usize) -> Option<usize>
    requires shift { node.now.shift ≤ 60 }
    requires used { AreMarked node.now.links node.now.used }
    ensures first { MatchOption result (IsNoneIn node.now at) (IsFirstIn node.now at) }
    ensures linked { IfSome result (λ first. link_for node.now first ≢ 0) }
{
    let prefix = at >> node.shift;
    let base = (node.base >> node.shift) / 16;
    if prefix / 16 > base {
        return None;
    }
    let digit = next_digit(node, first_digit(prefix, base));
    if digit == 16 {
        return None;
    }
    Some(at.max((base * 16 + digit) << node.shift))
}

// Reports the first number past those that have the digits of `at` from a shift on.
fn past(at: usize, span: u32) -> Step
    requires { IsSpan span }
    ensures { IsPast at span result }
{
    match skip(at, span) {
        Some(past) => Step::Skip(past),
        None => Step::End,
    }
}

// Returns the first slot that can have a key at or above a number, if there is one.
// Walks to the slot of the number, and keeps the first slot with a link after those on the way.
fn start(nodes: &[Node], keys: &[usize], root: u32, from: usize) -> Option<Slot>
    requires { IsTrie nodes.now keys.now root }
    ensures { MatchOption result (AreBelow keys.now from)
        (λ slot. IsStart nodes.now keys.now from slot.at slot.span slot.link) }
{
    let mut next = None;
    let mut span = 64;
    let mut link = root;
    while link % 2 == 1 {
        let node = &nodes[link as usize / 2];
        let prefix = from >> node.shift;
        if prefix / 16 != (node.base >> node.shift) / 16 {
            return Some(Slot {
                at: from,
                span,
                link,
            });
        }
        let digit = next_digit(node, prefix % 16 + 1);
        if digit < 16 {
            next = Some(Slot {
                at: (prefix / 16 * 16 + digit) << node.shift,
                span: node.shift,
                link: node.links[digit],
            });
        }
        span = node.shift;
        link = node.links[prefix % 16];
    }
    if link > 0 && from <= keys[link as usize / 2 - 1] {
        return Some(Slot {
            at: from,
            span,
            link,
        });
    }
    next
}

// Walks once from a slot towards the least key at or above the number of the slot.
fn walk(nodes: &[Node], keys: &[usize], slot: Slot) -> Step
    requires trie { (root : ℕ) × IsTrie nodes.now keys.now root }
    requires slot { IsWalk nodes.now keys.now slot.at slot.at slot.span slot.link }
    ensures { StepReports keys.now slot.at result }
{
    let mut at = slot.at;
    let mut span = slot.span;
    let mut link = slot.link as usize;
    while link % 2 == 1 {
        let node = &nodes[link / 2];
        match enter(node, at) {
            None => return past(at, span),
            Some(first) => {
                at = first;
                span = node.shift;
                link = node.links[(first >> node.shift) % 16] as usize;
            }
        }
    }
    if link > 0 && at <= keys[link / 2 - 1] {
        return Step::Found(link / 2 - 1);
    }
    past(at, span)
}

// Returns the place of the least key at or above a number, if there is one.
pub(crate) fn next_from(nodes: &[Node], keys: &[usize], root: u32, from: usize) -> Option<usize>
    requires { IsTrie nodes.now keys.now root }
    ensures { MatchOption result (AreBelow keys.now from) (IsNextPlace keys.now from) }
{
    let mut at = from;
    loop {
        let slot = start(nodes, keys, root, at)?;
        match walk(nodes, keys, slot) {
            Step::Found(place) => return Some(place),
            Step::Skip(past) => at = past,
            Step::End => return None,
        }
    }
}
