//! Laws of the machine, for every program and every view: a run has one answer, only draws read words, and accepted
//! programs give only answers that the road allows.
//!
//! Each law is the contract of a function with an empty body.

ghost use Rattle.std.specs.Prelude.{◌≡◌, ℕ, Bool, IsTrue, List, length};
ghost use Rattle.trlab_code.specs.declared.program.Kind.{Kind};
ghost use Rattle.trlab_code.specs.declared.program.Kind.TheVariants.{Motion, Change};
ghost use Rattle.trlab_code.specs.declared.instruction.Instr.{Instr};
ghost use Rattle.trlab_bounds.specs.declared.programs.TheConstants.{WORDS};
ghost use Rattle.trlab_code.specs.declared.view.View.{View};
ghost use Rattle.trlab_code.specs.Program.{Draws};
ghost use Rattle.trlab_code.specs.Machine.{Answer, Goes, EndsWith};
ghost use Rattle.trlab_code.specs.Views.{IsViewInRange};
ghost use Rattle.trlab_verify.specs.Verified.{CheckedProgram, IsChecked};
ghost use Rattle.trlab_machine.specs.Answers.{IsAllowed, MovesWithin, crossing_answer, CrossesWithin};

/// For a given view and given words, a program has at most one answer and one number of steps.
pub fn one_answer()
    ensures { (kind : Kind) (code : List Instr) (view : View) (words : List ℕ) →
        (a b : Answer) (m n : ℕ) →
        EndsWith kind code view words a m → EndsWith kind code view words b n →
        (a ≡ b) × (m ≡ n) }
{}

/// The words do not matter to a program without draws: it ends with the same answer, in as many steps.
pub fn words_are_not_read()
    ensures { (kind : Kind) (code : List Instr) (view : View) (words others : List ℕ) →
        (answer : Answer) (n : ℕ) → ¬ (Draws code) →
        EndsWith kind code view words answer n → EndsWith kind code view others answer n }
{}

/// If a motion program ends, its answer is a speed of at most the gap and the limit.
pub fn motion_answers()
    ensures { (code : List Instr) (view : View) (words : List ℕ) (answer : Answer) (n : ℕ) →
        EndsWith Motion code view words answer n →
        (v : ℕ) × (answer ≡ Goes v) × IsAllowed view v }
{}

/// For every view in range and any sixteen words, an accepted motion program ends within its budget with a speed of at
/// most the gap and the limit.
pub fn checked_motions_move()
    ensures { (motion : CheckedProgram) (view : View) (words : List ℕ) →
        IsChecked Motion motion → IsViewInRange view → length words ≡ WORDS →
        MovesWithin motion.program.instrs view words motion.budget }
{}

/// If a change program ends, the car either crosses to an empty side cell or stays.
pub fn change_answers()
    ensures { (code : List Instr) (view : View) (words : List ℕ) (answer : Answer) (n : ℕ) →
        EndsWith Change code view words answer n →
        (crosses : Bool) × (answer ≡ crossing_answer crosses)
        × (IsTrue crosses → IsTrue view.side) }
{}

/// For every view in range and any sixteen words, an accepted change program ends within its budget, and the car either
/// crosses to an empty side cell or stays.
pub fn checked_changes_answer()
    ensures { (change : CheckedProgram) (view : View) (words : List ℕ) →
        IsChecked Change change → IsViewInRange view → length words ≡ WORDS →
        CrossesWithin change.program.instrs view words change.budget }
{}
