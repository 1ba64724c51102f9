//! Tests of fields of words, keys and patterns of calls, and index trees: what no clause says and no goal shows.
#![tactic(auto)]

#[cfg(test)]
mod fields;
#[cfg(test)]
mod patterns;
#[cfg(test)]
mod trees;
