// Writing a tree: children first, then the node that leads to them.
ghost use Rattle.std.specs.Prelude.{◌≡◌, ℕ, ◌+◌, ◌^◌, ◌<◌, List, [], ◌∷◌, ◌++◌, length, map, IfOk, slice_index};
ghost use Rattle.std.specs.Global.{Vec};
ghost use Rattle.call_patterns.specs.Size.{empty_leaf};
ghost use Rattle.index_trees.specs.Levels.{level_words};
ghost use Rattle.index_trees.specs.Trees.{paired, Holds};

use crate::image::EMPTY_LEAF;
use crate::item::Item;
use crate::parts::split;
use std::alloc::{AllocError, Global};

/// A leaf with the names of the items.
fn leaf(out: &mut Vec<u64>, items: &[Item]) -> Result<u64, AllocError>
    ensures at { IfOk result (λ at. at ≡ length out.old.items) }
    ensures words { IfOk result (λ _. out.new.items ≡ out.old.items ++ (length items.now ∷ map (λ it. it.name) items.now)) }
{
    let at = out.len() as u64;
    out.push(items.len() as u64)?;
    for item in items {
        out.push(item.name)?;
    }
    Ok(at)
}

/// A node with these codes and children.
fn inner(out: &mut Vec<u64>, rest: u64, codes: &[u64], children: &[u64]) -> Result<u64, AllocError>
    requires { length children.now ≡ length codes.now }
    ensures at { IfOk result (λ at. at ≡ length out.old.items) }
    ensures words { IfOk result (λ _. out.new.items ≡ out.old.items ++ (length codes.now ∷ rest ∷ paired codes.now children.now)) }
{
    let at = out.len() as u64;
    out.push(codes.len() as u64)?;
    out.push(rest)?;
    for i in 0..codes.len() {
        out.push(codes[i])?;
        out.push(children[i])?;
    }
    Ok(at)
}

/// The tree of these items, for the codes of as many levels from this one on.
pub(crate) fn node(
    alloc: Global,
    out: &mut Vec<u64>,
    items: &[Item],
    level: u32,
    left: u32,
) -> Result<u64, AllocError>
    requires header { empty_leaf < length out.old.items }
    requires empty { slice_index out.old.items empty_leaf ≡ 0 }
    requires levels { level + left < 2 ^ 32 }
    ensures grows { IfOk result (λ _. (more : List ℕ) × (out.new.items ≡ out.old.items ++ more)) }
    ensures size { IfOk result (λ _. length out.new.items ≡ length out.old.items + level_words left level items.now) }
    ensures stands { IfOk result (λ at. Holds out.new.items at level left items.now) }
{
    if items.is_empty() {
        return Ok(EMPTY_LEAF);
    }
    if left == 0 {
        return leaf(out, items);
    }
    let parts = split(alloc, items, level)?;
    let rest = node(alloc, out, &parts.rest, level + 1, left - 1)?;
    let mut children = Vec::new(alloc);
    for child in &parts.children {
        let at = node(alloc, out, child, level + 1, left - 1)?;
        children.push(at)?;
    }
    inner(out, rest, &parts.codes, &children)
}
