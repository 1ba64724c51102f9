// Laws of bodies and of the standard order.
ghost use Rattle.prolog_terms.specs.Clauses.{BodiesAreBodies};
ghost use Rattle.prolog_terms.specs.Order.{IsOrder, HasKinds, HasRows};

/// What a term is converted to is a body, and a body is converted to itself.
pub fn bodies_are_bodies()
    ensures { BodiesAreBodies }
{}

/// The standard order puts each two terms in one order, and each kind of term where the language has it.
pub fn standard_order()
    ensures order { IsOrder }
    ensures kinds { HasKinds }
{}

/// Worked rows of the standard order, which the checker computes.
pub fn standard_order_rows()
    ensures { HasRows }
{}
