// Trees of rows that are written out: their sizes, their headers, and the names that some codes lead to.

ghost use Rattle.call_patterns.specs.Patterns.{IsPattern};
ghost use Rattle.std.specs.Prelude.{ℕ, ◌≡◌};

use call_patterns::{Key, Keys, Pattern, Row, pattern_of};
use index_trees::{Mark, TreeSize, bucket_word, build, probe, tree_size};
use prolog_terms::Want;
use std::alloc::Global;
use std::process::Abort;
use std::rt::HostRuntime;

const MARK: Mark = Mark {
    proc: 3,
    mark: 9,
    updates: 8,
    first: 2,
    last: 7,
};

/// The pattern of these arguments.
fn pattern(arguments: &[u8]) -> Pattern
    ensures { IsPattern result }
{
    let mut at = [None; 40];
    for argument in arguments {
        if let Some(slot) = at.get_mut(5 * (*argument as usize)) {
            *slot = Some(Key::Int(0));
        }
    }
    pattern_of(&Keys { at })
}

/// A row with codes at the first two arguments.
fn row(clause: u64, first: Option<u64>, second: Option<u64>) -> Row {
    let mut codes = [None; 40];
    codes[0] = first;
    codes[5] = second;
    Row { clause, codes }
}

/// Rows of these codes, named from 1 on.
fn rows_of(alloc: Global, codes: &[(Option<u64>, Option<u64>)]) -> Result<Vec<Row>, Want> {
    let mut rows = Vec::new(alloc);
    for (first, second) in codes {
        let clause = rows.len() as u64 + 1;
        rows.push(row(clause, *first, *second))?;
    }
    Ok(rows)
}

/// So many rows whose codes are distinct.
fn distinct(alloc: Global, count: u64) -> Result<Vec<Row>, Want> {
    let mut rows = Vec::new(alloc);
    for clause in 0..count {
        rows.push(row(clause, Some(clause ^ 0x5555), None))?;
    }
    Ok(rows)
}

/// The names to which the codes lead in the tree of the rows.
fn found(alloc: Global, rows: &[Row], pattern: Pattern, codes: &[u64]) -> Result<Vec<u64>, Want>
    requires { IsPattern pattern }
{
    let mut names = Vec::new(alloc);
    if codes.len() != pattern.count as usize {
        return Ok(names);
    }
    let mut words = build(alloc, rows, pattern, &MARK)?;
    let bucket = probe(&mut words, codes);
    for k in 0..bucket.len {
        names.push(bucket_word(&mut words, &bucket, k))?;
    }
    Ok(names)
}

/// Whether the codes lead to these names.
fn leads(
    alloc: Global,
    rows: &[Row],
    arguments: &[u8],
    codes: &[u64],
    names: &[u64],
) -> Result<bool, Want> {
    let found = found(alloc, rows, pattern(arguments), codes)?;
    Ok(found.as_slice() == names)
}

fn size(alloc: Global, rows: &[Row], arguments: &[u8], limit: u64) -> TreeSize {
    tree_size(alloc, rows, pattern(arguments), limit)
}

#[test]
fn distinct_codes_have_three_words_each(rt: HostRuntime) -> Result<(), Want> {
    let rows = distinct(rt.alloc(), 8)?;
    assert_eq!(rt; size(rt.alloc(), &rows, &[0], 43), TreeSize::Words(43));
    assert_eq!(rt; size(rt.alloc(), &rows, &[0], 42), TreeSize::Above);
    Ok(())
}

#[test]
fn the_header_is_written(rt: HostRuntime) -> Result<(), Want> {
    let rows = distinct(rt.alloc(), 2)?;
    let words = build(rt.alloc(), &rows, pattern(&[1, 0]), &MARK)?;
    assert!(rt;
        words
            .as_slice()
            .starts_with(&[3 + (1 << 32) + (6 << 38) + (1 << 50), 9, 2, 8, 2, 7])
    );
    Ok(())
}

#[test]
fn the_words_of_a_node_are_written(rt: HostRuntime) -> Result<(), Want> {
    let rows = rows_of(rt.alloc(), &[(Some(7), None), (Some(4), None)])?;
    let words = build(rt.alloc(), &rows, pattern(&[0]), &MARK)?;
    // how many words, the root, the empty leaf; two leaves of one name; the node: two codes, the default child, code and child
    assert!(rt;
        words
            .as_slice()
            .ends_with(&[19, 13, 0, 1, 2, 1, 1, 2, 8, 4, 9, 7, 11])
    );
    Ok(())
}

#[test]
fn a_code_leads_to_its_rows_and_those_without(rt: HostRuntime) -> Result<(), Want> {
    let rows = rows_of(
        rt.alloc(),
        &[
            (Some(7), None),
            (None, None),
            (Some(4), None),
            (Some(7), None),
        ],
    )?;
    assert!(rt; leads(rt.alloc(), &rows, &[0], &[7], &[1, 2, 4])?);
    assert!(rt; leads(rt.alloc(), &rows, &[0], &[4], &[2, 3])?);
    assert!(rt; leads(rt.alloc(), &rows, &[0], &[5], &[2])?);
    assert!(rt; leads(rt.alloc(), &rows, &[], &[], &[1, 2, 3, 4])?);
    Ok(())
}

#[test]
fn codes_at_two_positions_lead_on(rt: HostRuntime) -> Result<(), Want> {
    let rows = rows_of(
        rt.alloc(),
        &[
            (Some(2), Some(8)),
            (Some(2), Some(9)),
            (None, Some(8)),
            (Some(1), None),
        ],
    )?;
    assert!(rt; leads(rt.alloc(), &rows, &[0, 1], &[2, 8], &[1, 3])?);
    assert!(rt; leads(rt.alloc(), &rows, &[0, 1], &[2, 9], &[2])?);
    assert!(rt; leads(rt.alloc(), &rows, &[0, 1], &[1, 8], &[3, 4])?);
    assert!(rt; leads(rt.alloc(), &rows, &[0, 1], &[1, 5], &[4])?);
    assert!(rt; leads(rt.alloc(), &rows, &[0, 1], &[3, 5], &[])?);
    Ok(())
}

/// 65,000 rows of distinct codes, and 65,000 that have none.
#[test]
fn a_tree_far_above_the_limit_is_refused(rt: HostRuntime) -> Result<(), Want> {
    let mut rows = distinct(rt.alloc(), 65_000)?;
    for clause in 65_000..130_000 {
        rows.push(row(clause, None, None))?;
    }
    assert_eq!(rt; size(rt.alloc(), &rows, &[0], 1 << 19), TreeSize::Above);
    Ok(())
}

#[test]
fn many_rows_are_built(rt: HostRuntime) -> Result<(), Want> {
    let rows = distinct(rt.alloc(), 100_000)?;
    assert_eq!(rt;
        size(rt.alloc(), &rows, &[0], 1 << 19),
        TreeSize::Words(400_011)
    );
    assert!(rt; leads(rt.alloc(), &rows, &[0], &[0x5555 ^ 99_999], &[99_999])?);
    Ok(())
}
