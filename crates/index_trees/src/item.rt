// The rows as a tree sees them: a name, and the codes at the positions of the pattern.
ghost use Rattle.std.specs.Prelude.{◌≡◌, ◌≢◌, ℕ, ◌<◌, ◌≤◌, List, [], length, take, map, filter, IfOk, IfSome, All, Contains, slice_index};
ghost use Rattle.std.specs.List.{filter_map};
ghost use Rattle.std.specs.List.Sorted.{IsStrictlyIncreasing};
ghost use Rattle.index_trees.specs.Items.{code_at, has_no_code};
ghost use Rattle.index_trees.specs.Levels.{codes_of};

use std::alloc::{AllocError, Global};

/// A row at the three positions of a pattern.
#[derive(Clone, Copy, Debug)]
pub struct Item {
    pub name: u64,
    pub first: Option<u64>,
    pub second: Option<u64>,
    pub third: Option<u64>,
}

/// The code of an item at a level, counted from 0.
pub(crate) fn item_code(item: &Item, level: u32) -> Option<u64>
    ensures { result ≡ code_at level item.now }
{
    match level {
        0 => item.first,
        1 => item.second,
        _ => item.third,
    }
}

/// The codes of the items that have one.
fn all_codes(alloc: Global, items: &[Item], level: u32) -> Result<Vec<u64>, AllocError>
    ensures { IfOk result (λ v. v.items ≡ filter_map (code_at level) items.now) }
{
    let mut codes = Vec::new(alloc);
    for item in items {
        if let Some(code) = item_code(item, level) {
            codes.push(code)?;
        }
    }
    Ok(codes)
}

/// The distinct codes, ascending.
pub(crate) fn distinct_codes(
    alloc: Global,
    items: &[Item],
    level: u32,
) -> Result<Vec<u64>, AllocError>
    ensures ascending { IfOk result (λ v. IsStrictlyIncreasing v.items) }
    ensures are { IfOk result (λ v. v.items ≡ codes_of level items.now) }
    ensures complete { IfOk result (λ v. All (λ it. IfSome (code_at level it) (λ c. Contains v.items c)) items.now) }
{
    let mut codes = all_codes(alloc, items, level)?;
    codes.sort_unstable();
    codes.dedup();
    Ok(codes)
}

/// As many empty lists.
pub(crate) fn empty_lists(alloc: Global, count: usize) -> Result<Vec<Vec<Item>>, AllocError>
    ensures count { IfOk result (λ v. length v.items ≡ count) }
    ensures empty { IfOk result (λ v. All (λ child. child.items ≡ []) v.items) }
{
    let mut lists = Vec::new(alloc);
    for _ in 0..count {
        lists.push(Vec::new(alloc))?;
    }
    Ok(lists)
}

/// Whether an item has no code at a level.
#[tactic(auto, unfolding(crate::specs::Items::has_no_code))]
fn is_plain(item: &Item, level: u32) -> bool
    ensures { result ≡ has_no_code level item.now }
{
    match item_code(item, level) {
        Some(_) => false,
        None => true,
    }
}

/// How many items have no code at a level.
pub(crate) fn count_plain(items: &[Item], level: u32) -> u64
    ensures { result ≡ length (filter (has_no_code level) items.now) }
{
    let mut count = 0;
    for item in items {
        if is_plain(item, level) {
            count += 1;
        }
    }
    count
}
