//! Laws of the standard rules: the verifier accepts their programs, and they compute the published rules.

ghost use Rattle.std.specs.Prelude.{◌≡◌, ◌≤◌, ℕ};
ghost use Rattle.trlab_code.specs.declared.program.Kind.TheVariants.{Motion as OfMotion, Change as OfChange};
ghost use Rattle.trlab_verify.specs.Verdict.{IsAccepted};
ghost use Rattle.trlab_rules.specs.Published.{safe_speed, wording_1992, nasch_speed, vdr_speed, rickert_crosses};
ghost use Rattle.trlab_rules.specs.Standard.{nasch_program, vdr_program, rickert_program};
ghost use Rattle.trlab_rules.specs.Rules.{ComputesSpeed, ComputesCrossing, DrawsMatchChances};

/// The verifier accepts the programs of the standard rules for every probability.
pub fn standard_programs_are_accepted()
    ensures nasch { (p : ℕ) → IsAccepted OfMotion (nasch_program p) }
    ensures vdr { (p p0 : ℕ) → IsAccepted OfMotion (vdr_program p p0) }
    ensures rickert { (c : ℕ) → IsAccepted OfChange (rickert_program c) }
{}

/// `draw` writes a true flag exactly if an event of its probability happens on its random word.
pub fn chances_are_those_of_draws()
    ensures { DrawsMatchChances }
{}

/// The motion program `nasch_program` computes the speed of the Nagel-Schreckenberg model.
pub fn nasch_is_published()
    ensures { (p : ℕ) → ComputesSpeed (nasch_speed p) (nasch_program p) }
{}

/// The motion program `vdr_program` computes the speed of the VDR model of Barlovic et al. (1998).
pub fn vdr_is_published()
    ensures { (p p0 : ℕ) → ComputesSpeed (vdr_speed p p0) (vdr_program p p0) }
{}

/// The change program `rickert_program` computes the lane changes of Rickert et al. (1996), with this project's
/// distances.
pub fn rickert_is_published()
    ensures { (c : ℕ) → ComputesCrossing (rickert_crosses c) (rickert_program c) }
{}

/// For a speed of at most the limit, the wording of Nagel and Schreckenberg (1992) gives the minimum of the speed plus
/// one, the limit and the gap.
pub fn wording_is_safe_speed()
    ensures { (speed limit gap : ℕ) → speed ≤ limit → wording_1992 speed limit gap ≡ safe_speed speed limit gap }
{}
