// What the definitions say, and worked rows.
ghost use Rattle.prolog_arith.specs.Laws.{RemainderIsSmall, ModuloIsSmall, ShiftsAreFloors, ComplementIsOpposite};
ghost use Rattle.prolog_arith.specs.Rows.{HasSums, HasDivisions, HasBits, HasShifts, HasFarShifts, HasFaults};

/// What the quotients leave: it has the sign of the dividend for `//`, and that of the divisor for the floor, and it is
/// smaller than the divisor. A shift to the right is the floor of the quotient by its power of two. Each bit turned is
/// the opposite less 1.
pub fn operations()
    ensures remainder { RemainderIsSmall }
    ensures modulo { ModuloIsSmall }
    ensures shifts { ShiftsAreFloors }
    ensures complement { ComplementIsOpposite }
{}

/// Worked rows, which the checker computes.
pub fn rows()
    ensures sums { HasSums }
    ensures divisions { HasDivisions }
    ensures bits { HasBits }
    ensures shifts { HasShifts }
    ensures far_shifts { HasFarShifts }
    ensures faults { HasFaults }
{}
