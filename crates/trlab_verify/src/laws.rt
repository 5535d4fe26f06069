//! Laws of verdicts, for all programs.
//!
//! Each law is the contract of a function with an empty body.

ghost use Rattle.std.specs.Prelude.{◌≡◌, ◌≢◌, ◌⊎◌, ℕ, ◌<◌, ◌≤◌, List, Some, length};
ghost use Rattle.trlab_code.specs.declared.instruction.Variable.{Variable};
ghost use Rattle.trlab_code.specs.declared.program.Kind.{Kind};
ghost use Rattle.trlab_code.specs.Machine.{IsSafe};
ghost use Rattle.trlab_code.specs.Program.{Program, IsValidProgram};
ghost use Rattle.trlab_notes.specs.Notes.{Note, known_level, IsNoStronger};
ghost use Rattle.trlab_verify.specs.Verdict.{IsSent, note_at, IsLongest, IsAccepted, IsRefused};
ghost use Rattle.trlab_verify.specs.Verified.{IsChecked};
ghost use Rattle.trlab_verify.specs.Tables.{IsNoStrongerThanVerdictNote, Checks, AreVerdictNotes, HasCertificate, note_in};

/// Each program that is accepted as one of a kind is safe within its longest path.
pub fn accepted_is_safe()
    ensures { (kind : Kind) (program : Program) (budget : ℕ) →
        IsAccepted kind program → IsLongest program.instrs 0 budget → IsSafe kind program.instrs budget }
{}

/// An accepted program is not rejected. A rejection determines its instruction and its reason.
pub fn verdict_is_one()
    ensures accepted { (kind : Kind) (program : Program) (at reason : ℕ) →
        IsAccepted kind program → ¬ (IsRefused kind program at reason) }
    ensures refused { (kind : Kind) (program : Program) (at reason other_at other_reason : ℕ) →
        IsRefused kind program at reason → IsRefused kind program other_at other_reason →
        (at ≡ other_at) × (reason ≡ other_reason) }
{}

/// Each program is accepted as one of a kind, or rejected at some instruction for some reason.
pub fn each_is_judged()
    ensures { (kind : Kind) (program : Program) → IsAccepted kind program ⊎
        ((at : ℕ) × (reason : ℕ) × IsRefused kind program at reason) }
{}

/// Each accepted program has a longest path; with its length as the budget, it is a checked program.
#[tactic(auto, using(crate::proofs::Judged::some_budget))]
pub fn accepted_is_checked()
    ensures { (kind : Kind) (program : Program) → IsValidProgram program → IsAccepted kind program →
        (budget : ℕ) × IsChecked kind (record { program = program; budget = budget }) }
{}

/// The note of an instruction is the strongest one that is no stronger than any note sent to it.
pub fn note_is_strongest()
    ensures each { (kind : Kind) (program : Program) (pc : ℕ) (note sent : Note) →
        note_at kind program.instrs pc ≡ Some note → IsSent kind program.instrs pc sent → IsNoStronger note sent }
    ensures most { (kind : Kind) (program : Program) (pc : ℕ) (note other : Note) →
        note_at kind program.instrs pc ≡ Some note →
        ((sent : Note) → IsSent kind program.instrs pc sent → IsNoStronger other sent) → IsNoStronger other note }
{}

/// If some table of notes checks, the program is accepted, and the verdict's notes are at least as strong at
/// each instruction. The verdict's notes of an accepted program are such a table, and therefore the best one: a
/// program is accepted exactly if it has a certificate, a table that checks.
pub fn notes_are_best()
    ensures accepted { (kind : Kind) (program : Program) (table : List Note) →
        Checks kind program table → IsAccepted kind program }
    ensures best { (kind : Kind) (program : Program) (table : List Note) (pc : ℕ) →
        Checks kind program table → pc < length program.instrs → IsNoStrongerThanVerdictNote kind program pc (note_in table pc) }
    ensures checks { (kind : Kind) (program : Program) → IsAccepted kind program →
        (table : List Note) × AreVerdictNotes kind program table × Checks kind program table }
{}

/// A program is rejected as one of a kind only if no table of notes checks for that kind. Unless an instruction is
/// of the wrong kind (reason 2), no table then checks for the program's own kind either.
pub fn refused_without_notes()
    ensures called { (kind : Kind) (program : Program) (at reason : ℕ) →
        IsRefused kind program at reason → ¬ (HasCertificate kind program) }
    ensures own { (kind : Kind) (program : Program) (at reason : ℕ) →
        IsRefused kind program at reason → reason ≢ 2 → ¬ (HasCertificate program.kind program) }
{}

/// In a table that checks, no two variables have a known level above 2.
pub fn levels_are_at_most_two()
    ensures { (kind : Kind) (program : Program) (table : List Note) (pc : ℕ) (x y : Variable) →
        Checks kind program table → pc < length program.instrs →
        known_level (note_in table pc) x y ≤ 2 }
{}
