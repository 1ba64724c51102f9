// A builtin by its name and arity.
ghost use Rattle.std.specs.Prelude.{◌≡◌, true};
ghost use Rattle.term_builtins.specs.Table.{builtins, place_in, are_in_order};
ghost use Rattle.std.specs.Ordering.{nat_cmp, ordering_then};
ghost use Rattle.prolog_terms.specs.Order.{name_order};

use crate::table::{BUILTINS, Builtin, row_of};
use std::cmp::Ordering;

/// The place in `BUILTINS` of the row with this name and arity. It takes no memory, and looks at no more rows than the
/// table can be halved.
pub fn find_builtin(name: &[u8], arity: u32) -> Option<usize>
    ensures { result ≡ place_in builtins name.now arity }
{
    let mut low = 0;
    let mut high = BUILTINS.len();
    while low < high {
        let middle = low + (high - low) / 2;
        let row = row_of(middle);
        match order_of(&row, name, arity) {
            Ordering::Equal => return Some(middle),
            Ordering::Less => low = middle + 1,
            Ordering::Greater => high = middle,
        }
    }
    None
}

/// How a row stands to a name and arity.
fn order_of(row: &Builtin, name: &[u8], arity: u32) -> Ordering
    ensures { result ≡ ordering_then (name_order row.now.name.now name.now) (nat_cmp row.now.arity arity) }
{
    row.name.cmp(name).then(row.arity.cmp(&arity))
}

/// The table is in the order of names and arities.
pub fn table_is_in_order()
    ensures { are_in_order builtins ≡ true }
{}
