//! Laws of tables, independent of the code that writes them.
//!
//! Each law is the contract of a function with an empty body.

ghost use Rattle.trlab_diagram.specs.Laws.{TableDeterminesPoints};

/// A table determines its points: different lists of points have different tables.
pub fn table_determines_points()
    ensures { TableDeterminesPoints }
{}
