//! Laws of explanations, independent of the code that writes them.
//!
//! Each law is the contract of a function with an empty body.

ghost use Rattle.trlab_explain.specs.Laws.{EveryTextHasAHead};

/// Each text, read as any kind of input, has the head of an explanation.
pub fn every_text_has_a_head()
    ensures { EveryTextHasAHead }
{}
