// What the checker computes.
ghost use Rattle.prolog_writer.specs.Rows.{HasRows};

/// Worked rows.
pub fn rows()
    ensures { HasRows }
{}
