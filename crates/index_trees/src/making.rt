// A tree's image, made of rows.
ghost use Rattle.std.specs.Prelude.{◌≡◌, ℕ, ◌+◌, ◌^◌, ◌<◌, ◌≤◌, List, [], ◌∷◌, ◌++◌, length, map, take, IfOk, slice_index, slice_set, if◌then◌else◌};
ghost use Rattle.call_patterns.specs.Size.{empty_leaf, size};
ghost use Rattle.call_patterns.specs.Rows.{code_of, bucket};
ghost use Rattle.call_patterns.specs.Patterns.{IsPattern, places, positions};
ghost use Rattle.index_trees.specs.Images.{shown_at};
ghost use Rattle.index_trees.specs.Images.{item_at, header_words, header_word, HoldsBucket, IsHeader};

use crate::building::node;
use crate::image::{Mark, ROOT_WORD, SIZE_WORD};
use crate::item::Item;
use call_patterns::{Pattern, Row};
use prolog_terms::Want;
use std::alloc::{AllocError, Global};
use word_fields::{Field, fields};

type Procedure = Field<0, 32>;

type First = Field<32, 6>;

type Second = Field<38, 6>;

type Third = Field<44, 6>;

type Format = Field<50, 8>;

/// A row's code at a position.
fn row_code(row: &Row, position: u8) -> Option<u64>
    ensures { result ≡ code_of row.now position }
{
    match row.codes.get(position as usize) {
        Some(code) => *code,
        None => None,
    }
}

/// A row at three positions.
fn item_of(row: &Row, first: u8, second: u8, third: u8) -> Item
    ensures { result ≡ item_at first second third row.now }
{
    Item {
        name: row.clause,
        first: row_code(row, first),
        second: row_code(row, second),
        third: row_code(row, third),
    }
}

/// The rows at three positions, in order.
pub(crate) fn items_of(
    alloc: Global,
    rows: &[Row],
    first: u8,
    second: u8,
    third: u8,
) -> Result<Vec<Item>, AllocError>
    ensures { IfOk result (λ v. v.items ≡ map (item_at first second third) rows.now) }
{
    let mut items = Vec::new(alloc);
    for row in rows {
        items.push(item_of(row, first, second, third))?;
    }
    Ok(items)
}

/// The three places of a pattern.
pub(crate) fn places_of(pattern: Pattern) -> [u8; 3]
    requires { IsPattern pattern }
    ensures { result ≡ places pattern }
{
    let [first, second, third] = pattern.at;
    [first.0, second.0, third.0]
}

/// A position as the header has it: plus one, and 0 where the pattern is shorter.
fn shown(position: u8, is_used: bool) -> u8
    requires { position < 40 }
    ensures value { result ≡ if is_used then position + 1 else 0 }
    ensures small { result ≤ 40 }
{
    if is_used { position + 1 } else { 0 }
}

/// The first word: the procedure, the positions plus one, 0 for none, and the format.
#[tactic(auto, unfolding(crate::specs::Images::header_word))]
fn first_word(proc: u32, first: u8, second: u8, third: u8) -> u64
    requires { (first ≤ 40) × (second ≤ 40) × (third ≤ 40) }
    ensures { result ≡ header_word proc first second third }
{
    fields!(
        0,
        Procedure = proc as u64,
        First = first as u64,
        Second = second as u64,
        Third = third as u64,
        Format = 1
    )
}

/// The nine words before the nodes. The length and the root come later.
fn header(alloc: Global, word: u64, mark: &Mark, covered: u64) -> Result<Vec<u64>, AllocError>
    ensures { IfOk result (λ v. v.items ≡ header_words word mark.now covered 0 0 ++ 0 ∷ []) }
{
    Ok(vec![in alloc;
        word,
        mark.mark,
        covered,
        mark.updates,
        mark.first,
        mark.last,
        0,
        0,
        0,
    ]?)
}

/// Writes the length and the root.
fn close(words: &mut Vec<u64>, root: u64)
    requires { empty_leaf < length words.old.items }
    ensures words { words.new.items ≡ slice_set (slice_set words.old.items 6 (length words.old.items)) 7 root }
    ensures small { length words.new.items < 2 ^ 63 }
{
    let size = words.len() as u64;
    words[SIZE_WORD] = size;
    words[ROOT_WORD] = root;
}

/// The image of the tree of the rows: for every list of codes as long as the pattern, the codes lead to the bucket of the
/// rows, in their order.
pub fn build(alloc: Global, rows: &[Row], pattern: Pattern, mark: &Mark) -> Result<Vec<u64>, Want>
    requires pattern { IsPattern pattern }
    ensures header { IfOk result (λ v. IsHeader v.items (header_word mark.now.proc (shown_at pattern 0) (shown_at pattern 1) (shown_at pattern 2)) mark.now (length rows.now)) }
    ensures size { IfOk result (λ v. length v.items ≡ size rows.now pattern) }
    ensures buckets { IfOk result (λ v. (cs : List ℕ) → length cs ≡ pattern.count → HoldsBucket v.items cs (bucket rows.now (positions pattern) cs)) }
{
    let [first, second, third] = places_of(pattern);
    let items = items_of(alloc, rows, first, second, third)?;
    let word = first_word(
        mark.proc,
        shown(first, 0 < pattern.count),
        shown(second, 1 < pattern.count),
        shown(third, 2 < pattern.count),
    );
    let mut words = header(alloc, word, mark, rows.len() as u64)?;
    let root = node(alloc, &mut words, &items, 0, pattern.count as u32)?;
    close(&mut words, root);
    Ok(words)
}
