//! What no row shows of the crates that read and write: calls of their own types, the places of tokens, and the first
//! operator table.
#![tactic(auto)]

#[cfg(test)]
mod lexer;
#[cfg(test)]
mod terms;
#[cfg(test)]
mod writer;
