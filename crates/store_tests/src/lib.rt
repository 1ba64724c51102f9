//! Tests of the store of terms: cells, bindings and marks, which no goal of the program shows.
#![tactic(auto)]

#[cfg(test)]
mod cells;
