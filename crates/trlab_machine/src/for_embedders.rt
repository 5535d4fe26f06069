//! Runs an accepted program for one car, on given random words, and counts its instructions. A block cannot do this: it
//! makes the words of its cars itself, and counts nothing.
//!
//! Programs that embed trlab call this, and so do its tests. A run of trlab itself calls `run_motions` and
//! `run_changes`.

ghost use Rattle.std.specs.Prelude.{◌≡◌, ◌≤◌, All, IsTrue, length};
ghost use Rattle.trlab_code.specs.declared.program.Kind.TheVariants.{Change as OfChange, Motion as OfMotion};
ghost use Rattle.trlab_code.specs.Machine.{IsSafe, EndsWith, Goes};
ghost use Rattle.trlab_code.specs.Program.{IsInRange};
ghost use Rattle.trlab_code.specs.Views.{IsViewInRange};
ghost use Rattle.trlab_machine.specs.Answers.{crossing_answer};
ghost use Rattle.trlab_machine.specs.Stored.{answer_of, number_in, result_number};
ghost use Rattle.trlab_words.specs.Words.{happens_on};

use crate::columns::REGISTER_COUNT;
use crate::role::{Role, role_of};
use crate::views::seen;
use trlab_code::{ChangeView, Instr, Kind, MAX_INSTRUCTIONS, MotionView, Register, View, WORDS};
use trlab_verify::{Change, Motion};

/// The result of a motion program.
#[derive(Clone, Copy, PartialEq, Eq)]
pub struct Moved {
    /// The car's new speed, in cells per step.
    pub speed: u32,
    /// The number of executed instructions, including the end.
    pub steps: u32,
}

/// Runs an accepted motion program for one car, on the car's view and its sixteen random words.
///
/// The new speed is at most the gap and the limit. This always succeeds and allocates nothing.
#[tactic(auto, using(crate::proofs::Speeds::speed_allowed))]
pub fn run_motion(program: &Motion, view: MotionView, words: &[u32; WORDS]) -> Moved
    ensures ends { EndsWith OfMotion program.now.program.instrs view words.now
        (Goes result.speed) result.steps }
    ensures in_budget { result.steps ≤ program.now.budget }
    ensures gap { result.speed ≤ view.gap }
    ensures limit { result.speed ≤ view.limit }
{
    let seen = view.get();
    let ended = run(
        Kind::Motion,
        program.code().instrs(),
        program.budget(),
        &seen,
        words,
    );
    Moved {
        speed: ended.answer,
        steps: ended.steps,
    }
}

/// The result of a change program.
#[derive(Clone, Copy, PartialEq, Eq)]
pub struct Chosen {
    /// Whether the car crosses to the other lane.
    pub cross: bool,
    /// The number of executed instructions, including the end.
    pub steps: u32,
}

/// Runs an accepted change program for one car, on the car's view and its sixteen random words.
///
/// The car crosses only if its side cell is empty. This always succeeds and allocates nothing.
#[tactic(auto, using(crate::proofs::Crossings::crossing_allowed))]
pub fn run_change(program: &Change, view: ChangeView, words: &[u32; WORDS]) -> Chosen
    ensures ends { EndsWith OfChange program.now.program.instrs view words.now
        (crossing_answer result.cross) result.steps }
    ensures in_budget { result.steps ≤ program.now.budget }
    ensures side { IsTrue result.cross → IsTrue view.side }
{
    let seen = view.get();
    let ended = run(
        Kind::Change,
        program.code().instrs(),
        program.budget(),
        &seen,
        words,
    );
    Chosen {
        cross: ended.answer == 1,
        steps: ended.steps,
    }
}

/// The number in each register; any number before the program writes one.
type Registers = [u32; REGISTER_COUNT];

/// How a program ended, and after how many instructions.
#[derive(Clone, Copy)]
pub struct RunResult {
    /// The new speed; for a change program, 1 if the car crosses and 0 if it stays.
    pub answer: u32,
    /// The number of executed instructions, including the end.
    pub steps: u32,
}

/// Runs a program instruction by instruction. Only the proof reads the kind and the budget.
pub fn run(
    kind: Kind,
    instrs: &[Instr],
    budget: u32,
    view: &View,
    words: &[u32; WORDS],
) -> RunResult
    requires safe { IsSafe kind instrs.now budget }
    requires at_most_max_instructions { length instrs.now ≤ MAX_INSTRUCTIONS }
    requires in_range { All IsInRange instrs.now }
    requires seen { IsViewInRange view.now }
    ensures ends { EndsWith kind instrs.now view.now words.now
        (answer_of kind result.answer) result.steps }
    ensures in_budget { result.steps ≤ budget }
{
    let mut registers = [0; REGISTER_COUNT];
    let mut pc = 0;
    let mut steps = 0;
    'run: loop {
        steps += 1;
        let instr = instrs[pc];
        let number = result_number(instr, &registers, view, words);
        match role_of(instr) {
            Role::Writes(register) => {
                registers[register.number()] = number;
                pc += 1;
            }
            Role::Jumps(target) => pc = if number == 1 { target as usize } else { pc + 1 },
            Role::Ends => {
                return RunResult {
                    answer: number,
                    steps,
                };
            }
        }
    }
}

/// The number in a register.
fn value(registers: &Registers, register: Register) -> u32
    ensures { result ≡ number_in registers.now register }
{
    registers[register.number()]
}

/// Whether an event of probability `parts` / 2^31 happens on a random word.
fn happens(word: u32, parts: u32) -> bool
    ensures { result ≡ happens_on parts word }
{
    word / 2 < parts
}

/// The result of an instruction: the number that it writes, 1 if it jumps and 0 if not, or the answer.
///
/// Nothing is tested here, because in an accepted program no sum wraps and no difference is negative.
fn result_number(instr: Instr, r: &Registers, view: &View, words: &[u32; WORDS]) -> u32
    requires { IsInRange instr }
    ensures { result ≡ result_number view.now words.now (number_in r.now) instr }
{
    match instr {
        Instr::Num(_, n) => n,
        Instr::Get(_, k) => seen(view, k),
        Instr::Side(_) => u32::from(view.side),
        Instr::Draw(_, k, t) => u32::from(happens(words[usize::from(k)], t)),
        Instr::Copy(_, a) | Instr::Go(a) => value(r, a),
        Instr::Add(_, a, b) => value(r, a).wrapping_add(value(r, b)),
        Instr::Sub(_, a, b) => value(r, a).saturating_sub(value(r, b)),
        Instr::Mul(_, a, n) => value(r, a).wrapping_mul(n),
        Instr::Div(_, a, n) => value(r, a) / n,
        Instr::Min(_, a, b) => value(r, a).min(value(r, b)),
        Instr::Max(_, a, b) => value(r, a).max(value(r, b)),
        Instr::Not(_, a) => 1u32.saturating_sub(value(r, a)),
        Instr::And(_, a, b) => value(r, a) & value(r, b),
        Instr::Or(_, a, b) => value(r, a) | value(r, b),
        Instr::JumpLess(a, b, _) => u32::from(value(r, a) < value(r, b)),
        Instr::JumpAtMost(a, b, _) => u32::from(value(r, a) <= value(r, b)),
        Instr::JumpTrue(a, _) => u32::from(value(r, a) == 1),
        Instr::JumpFalse(a, _) => u32::from(value(r, a) == 0),
        Instr::Jump(_) | Instr::Cross => 1,
        Instr::Stay => 0,
    }
}
