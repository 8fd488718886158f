//! Laws of linearity.
ghost use Rattle.typing_linear.specs.Laws.{ReadsAlike};

/// An expression as it is written reads a changing function, and is linear, exactly where the expression that it resolves to
/// does and is.
pub fn written_and_resolved_read_alike()
    ensures { ReadsAlike }
{}
