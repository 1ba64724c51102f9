// A number above the variables of a term.
ghost use Rattle.std.specs.Prelude.{◌≡◌, ◌≤◌, ◌^◌, max, IfSome, IsNone};
ghost use Rattle.prolog_terms.specs.Substitutions.{beyond};
ghost use Rattle.term_store.specs.Puts.{beyond_node};

use prolog_terms::{Node, Term};

/// The least number above each variable of a term, to which it may be put (`Store::put`). There is none where that
/// number isn't one of the machine.
pub fn above_variables(term: &Term) -> Option<u64>
    ensures some { IfSome result (λ n. n ≡ beyond term.now) }
    ensures none { IsNone result → 2 ^ 64 ≤ beyond term.now }
{
    let mut above = 0;
    for node in term.nodes() {
        match raised(above, node) {
            Some(more) => above = more,
            None => return None,
        }
    }
    Some(above)
}

/// The number, or one above a node that is a variable.
fn raised(above: u64, node: &Node) -> Option<u64>
    ensures some { IfSome result (λ n. n ≡ max above (beyond_node node.now)) }
    ensures none { IsNone result → 2 ^ 64 ≤ beyond_node node.now }
{
    match node {
        Node::Var(number) => {
            let more = number.checked_add(1)?;
            if more > above {
                return Some(more);
            }
            Some(above)
        }
        Node::Int(_) => Some(above),
        Node::Atom(_) => Some(above),
        Node::Functor(_, _) => Some(above),
    }
}
