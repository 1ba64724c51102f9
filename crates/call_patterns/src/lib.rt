//! What an index sees of clauses and calls: keys and their codes, the pattern of a call, and the rows of a procedure.
//!
//! `specs/Keys.antt` says what the keys of a term are and when those of a head and a goal agree, `specs/Calls.antt` which
//! keys stand for them where names are numbers, and `specs/Candidates.antt` which clauses a call tries. `specs/Codes.antt` says what the code of a key is, `specs/Patterns.antt` what a call's pattern is, `specs/Rows.antt` which
//! rows a procedure has and which of them are the bucket of some codes, `specs/Agreement.antt` how many clauses agree with a
//! call, and `specs/Size.antt` how many words the tree of some rows has. The crates that make and use indexes cite them.
#![tactic(auto)]

mod coding;
mod key;
mod keys;
mod law;
mod pattern;
mod row;
mod walk;

pub use coding::code;
pub use key::{Key, Keys, Position};
pub use keys::{could_match, keys_of};
pub use law::{
    candidates_are_in_the_bucket, equal_keys_have_equal_codes, heads_that_unify_could_match,
    published_check, sizes_by_counts, worked_keys, worked_sizes,
};
pub use pattern::{Pattern, pattern_of};
pub use row::Row;
pub use walk::position_at;
