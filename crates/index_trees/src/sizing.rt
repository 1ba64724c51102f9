// How many words a tree has, without writing it.
ghost use Rattle.call_patterns.specs.Patterns.{IsPattern};
ghost use Rattle.call_patterns.specs.Size.{size};
ghost use Rattle.index_trees.specs.Levels.{level_words, tree_words};
ghost use Rattle.index_trees.specs.Limits.{IsPartedWithin, IsSize};
ghost use Rattle.std.specs.Prelude.{ℕ, length, ◌*◌, ◌+◌, ◌<◌, ◌^◌, ◌≡◌, ◌≤◌};

use crate::image::HEADER_LENGTH;
use crate::item::{Item, count_plain, distinct_codes};
use crate::making::{items_of, places_of};
use crate::parts::{Parts, parted};
use call_patterns::{Pattern, Row};
use std::alloc::Global;

/// How many words a tree has: so many, more than the limit, or no answer for want of memory.
#[derive(Clone, Copy, Debug, PartialEq, Eq)]
pub enum TreeSize {
    Words(u64),
    Above,
    Want,
}

/// The parts of a level, unless what they need in any case is above a limit.
#[derive(Drop)]
pub(crate) enum Parted {
    Within(Parts),
    TooMany,
    NoMemory,
}

/// The parts of a level. Nothing is parted where the node and its children are above the limit in any case: each child has
/// each of the items that have no code, and a word for each.
fn parted_within(alloc: Global, items: &[Item], level: u32, limit: u64) -> Parted
    ensures { IsPartedWithin level items.now limit result }
{
    let codes = match distinct_codes(alloc, items, level) {
        Ok(codes) => codes,
        Err(_) => return Parted::NoMemory,
    };
    let own = 2 + 2 * codes.len() as u64;
    let children = (codes.len() as u64).saturating_mul(count_plain(items, level));
    if limit < own || limit < children.saturating_add(own) {
        return Parted::TooMany;
    }
    match parted(alloc, codes, items, level) {
        Ok(parts) => Parted::Within(parts),
        Err(_) => Parted::NoMemory,
    }
}

/// The words, where they are at most the limit.
fn within(words: u64, limit: u64) -> TreeSize
    ensures { IsSize words limit result }
{
    if words <= limit {
        TreeSize::Words(words)
    } else {
        TreeSize::Above
    }
}

/// The words of the nodes of these items, for the codes of as many levels from this one on.
fn words_from(alloc: Global, items: &[Item], level: u32, left: u32, limit: u64) -> TreeSize
    requires { level + left < 2 ^ 32 }
    ensures { IsSize (level_words left level items.now) limit result }
{
    if items.is_empty() {
        return TreeSize::Words(0);
    }
    if left == 0 {
        return within(1 + items.len() as u64, limit);
    }
    let parts = match parted_within(alloc, items, level, limit) {
        Parted::Within(parts) => parts,
        Parted::TooMany => return TreeSize::Above,
        Parted::NoMemory => return TreeSize::Want,
    };
    let mut total = 2 + 2 * parts.codes.len() as u64;
    match words_from(alloc, &parts.rest, level + 1, left - 1, limit - total) {
        TreeSize::Words(words) => total += words,
        TreeSize::Above => return TreeSize::Above,
        TreeSize::Want => return TreeSize::Want,
    }
    for child in &parts.children {
        match words_from(alloc, child, level + 1, left - 1, limit - total) {
            TreeSize::Words(words) => total += words,
            TreeSize::Above => return TreeSize::Above,
            TreeSize::Want => return TreeSize::Want,
        }
    }
    TreeSize::Words(total)
}

/// The words of the tree of these items.
fn items_size(alloc: Global, items: &[Item], levels: u32, limit: u64) -> TreeSize
    ensures { IsSize (tree_words levels items.now) limit result }
{
    if limit <= HEADER_LENGTH {
        return TreeSize::Above;
    }
    match words_from(alloc, items, 0, levels, limit - HEADER_LENGTH - 1) {
        TreeSize::Words(words) => TreeSize::Words(HEADER_LENGTH + 1 + words),
        TreeSize::Above => TreeSize::Above,
        TreeSize::Want => TreeSize::Want,
    }
}

/// How many words the tree of the rows has, where they are at most the limit; Above exactly where they are more. That is
/// decided before more is allocated than the rows and the limit allow.
pub fn tree_size(alloc: Global, rows: &[Row], pattern: Pattern, limit: u64) -> TreeSize
    requires { IsPattern pattern }
    ensures { IsSize (size rows.now pattern) limit result }
{
    let [first, second, third] = places_of(pattern);
    let items = match items_of(alloc, rows, first, second, third) {
        Ok(items) => items,
        Err(_) => return TreeSize::Want,
    };
    items_size(alloc, &items, pattern.count as u32, limit)
}
