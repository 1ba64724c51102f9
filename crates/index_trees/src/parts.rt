// The items of a level, parted by their codes.
ghost use Rattle.std.specs.Prelude.{◌≡◌, ℕ, ◌+◌, ◌<◌, List, [], ◌∷◌, ◌++◌, length, All, IfOk, IfSome, Contains, slice_index, slice_index_or};
ghost use Rattle.std.specs.List.Sorted.{IsStrictlyIncreasing};
ghost use Rattle.std.specs.Global.{Vec};
ghost use Rattle.index_trees.specs.declared.item.Item.{Item};
ghost use Rattle.index_trees.specs.Items.{code_at};
ghost use Rattle.index_trees.specs.Levels.{codes_of};
ghost use Rattle.index_trees.specs.Parts.{AreParts, IsSplit};

use crate::item::{Item, distinct_codes, empty_lists, item_code};
use std::alloc::{AllocError, Global};

/// The items of a level: the distinct codes, ascending, for each the items that have it or none, and those that have none.
#[derive(Drop)]
pub(crate) struct Parts {
    pub codes: Vec<u64>,
    pub children: Vec<Vec<Item>>,
    pub rest: Vec<Item>,
}

/// The item goes to every child.
fn give(children: &mut Vec<Vec<Item>>, item: &Item) -> Result<(), AllocError>
    ensures many { length children.new.items ≡ length children.old.items }
    ensures each { IfOk result (λ _. (k : ℕ) (d : Vec Item) → k < length children.old.items → (slice_index_or children.new.items k d).items ≡ (slice_index_or children.old.items k d).items ++ item.now ∷ []) }
{
    for child in children.iter_mut() {
        child.push(*item)?;
    }
    Ok(())
}

/// Where a code stands.
fn place(codes: &[u64], code: u64) -> usize
    requires ascending { IsStrictlyIncreasing codes.now }
    requires there { Contains codes.now code }
    ensures below { result < length codes.now }
    ensures found { slice_index codes.now result ≡ code }
{
    match codes.binary_search(&code) {
        Ok(at) => at,
        Err(at) => at,
    }
}

/// One item more.
fn put(
    codes: &[u64],
    children: &mut Vec<Vec<Item>>,
    rest: &mut Vec<Item>,
    item: &Item,
    level: u32,
) -> Result<(), AllocError>
    requires ascending { IsStrictlyIncreasing codes.now }
    requires there { IfSome (code_at level item.now) (λ c. Contains codes.now c) }
    requires many { length children.old.items ≡ length codes.now }
    ensures many { length children.new.items ≡ length children.old.items }
    ensures parts { IfOk result (λ _. (done : List Item) → AreParts level done codes.now children.old.items rest.old.items → AreParts level (done ++ item.now ∷ []) codes.now children.new.items rest.new.items) }
{
    match item_code(item, level) {
        Some(code) => {
            let at = place(codes, code);
            children[at].push(*item)?;
        }
        None => {
            give(children, item)?;
            rest.push(*item)?;
        }
    }
    Ok(())
}

/// The items parted by these codes, which are the distinct ones of the level, ascending.
pub(crate) fn parted(
    alloc: Global,
    codes: Vec<u64>,
    items: &[Item],
    level: u32,
) -> Result<Parts, AllocError>
    requires ascending { IsStrictlyIncreasing codes.items }
    requires are { codes.items ≡ codes_of level items.now }
    requires complete { All (λ it. IfSome (code_at level it) (λ c. Contains codes.items c)) items.now }
    ensures { IfOk result (λ p. IsSplit level items.now p.codes.items p.children.items p.rest.items) }
{
    let mut children = empty_lists(alloc, codes.len())?;
    let mut rest = Vec::new(alloc);
    for item in items {
        put(&codes, &mut children, &mut rest, item, level)?;
    }
    Ok(Parts {
        codes,
        children,
        rest,
    })
}

/// The items parted by their codes at a level.
pub(crate) fn split(alloc: Global, items: &[Item], level: u32) -> Result<Parts, AllocError>
    ensures { IfOk result (λ p. IsSplit level items.now p.codes.items p.children.items p.rest.items) }
{
    let codes = distinct_codes(alloc, items, level)?;
    let parts = parted(alloc, codes, items, level)?;
    Ok(parts)
}
