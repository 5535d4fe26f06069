//! The result of an instruction: its abstract value, and its order with the variables.

ghost use Rattle.std.specs.Prelude.{◌≡◌, ℕ, ◌+◌, ◌-◌, ◌*◌, ◌/◌, ◌<◌, ◌≤◌, min, max, false};
ghost use Rattle.trlab_bounds.specs.declared.programs.TheConstants.{MAX_NUMBER};
ghost use Rattle.trlab_code.specs.declared.instruction.Variable.{Variable as AVariable};
ghost use Rattle.trlab_code.specs.Machine.{variable_number};
ghost use Rattle.trlab_code.specs.Program.{IsInRange};
ghost use Rattle.trlab_notes.specs.declared.note.AbstractValue.TheVariants.{Between};
ghost use Rattle.trlab_notes.specs.Notes.{closure, high, low};
ghost use Rattle.trlab_notes.specs.Reasons.{may_be_too_large};
ghost use Rattle.trlab_notes.specs.Rows.{known_level_from, level_in};
ghost use Rattle.trlab_notes.specs.Stored.{note_of};
ghost use Rattle.trlab_notes.specs.Transfer.{assign_result, flag_implies, least_difference, register_level, register_value, result_value, result_to, to_result};

use crate::note::{AbstractValue, BELOW, level_between};
use crate::rows::{LevelRow, StoredNote, with_variable};
use trlab_code::{Instr, Register, VARIABLES, Variable};

/// The range of the sum of two numbers.
fn sum(p: AbstractValue, q: AbstractValue) -> AbstractValue
    requires { high p + high q ≤ MAX_NUMBER }
    ensures { result ≡ Between (min (low p + low q) MAX_NUMBER) (high p + high q) }
{
    AbstractValue::Between(p.low().saturating_add(q.low()), p.high() + q.high())
}

/// The range of the difference of two numbers, which is at least `least`.
fn difference(p: AbstractValue, q: AbstractValue, least: u32) -> AbstractValue
    ensures { result ≡ Between (max (low p - high q) least) (high p - low q) }
{
    AbstractValue::Between(
        p.low().saturating_sub(q.high()).max(least),
        p.high().saturating_sub(q.low()),
    )
}

/// The range of a number times n.
fn product(p: AbstractValue, n: u32) -> AbstractValue
    requires { high p * n ≤ MAX_NUMBER }
    ensures { result ≡ Between (min (low p * n) MAX_NUMBER) (high p * n) }
{
    AbstractValue::Between(p.low().saturating_mul(n), p.high() * n)
}

/// The range of a number divided by n, rounded down.
fn quotient(p: AbstractValue, n: u32) -> AbstractValue
    requires { 1 ≤ n }
    ensures { result ≡ Between (low p / n) (high p / n) }
{
    AbstractValue::Between(p.low() / n, p.high() / n)
}

/// The range of the smaller of two numbers.
fn smaller(p: AbstractValue, q: AbstractValue) -> AbstractValue
    ensures { result ≡ Between (min (low p) (low q)) (min (high p) (high q)) }
{
    AbstractValue::Between(p.low().min(q.low()), p.high().min(q.high()))
}

/// The range of the larger of two numbers.
fn greater(p: AbstractValue, q: AbstractValue) -> AbstractValue
    ensures { result ≡ Between (max (low p) (low q)) (max (high p) (high q)) }
{
    AbstractValue::Between(p.low().max(q.low()), p.high().max(q.high()))
}

/// The smallest difference if the second number has this level to the first.
fn least_difference(level: u8) -> u32
    ensures { result ≡ least_difference level }
{
    if level >= BELOW { 1 } else { 0 }
}

/// The known levels of a variable to all variables and of all variables to it, from its levels `to` and `from` and the
/// ranges.
fn known_row_and_column(
    values: &[AbstractValue; VARIABLES],
    variable: usize,
    to: LevelRow,
    from: LevelRow,
) -> (LevelRow, LevelRow)
    requires { variable < VARIABLES }
    ensures to { (y : ℕ) → y < VARIABLES → level_in result.0 y ≡ known_level_from values.now variable y (level_in to y) }
    ensures from { (x : ℕ) → x < VARIABLES
        → level_in result.1 x ≡ known_level_from values.now x variable (level_in from x) }
{
    let (mut row, mut column) = (to, from);
    for x in 0..VARIABLES {
        row = row.with(
            x,
            level_between(values[variable], values[x], variable == x, to.level(x)),
        );
        column = column.with(
            x,
            level_between(values[x], values[variable], x == variable, from.level(x)),
        );
    }
    (row, column)
}

impl StoredNote {
    /// The abstract value of a register.
    pub(crate) fn register_value(&self, register: Register) -> AbstractValue
        ensures { result ≡ register_value (note_of self.now) register }
    {
        self.values[Variable::Register(register).number()]
    }

    /// Whether the flag in a register implies that the side cell is empty.
    fn flag_implies(&self, register: Register) -> bool
        ensures { result ≡ flag_implies (note_of self.now) register }
    {
        self.value_with_side(Variable::Register(register)).implies()
    }

    /// The known level of one register to another.
    pub(crate) fn register_level(&self, from: Register, to: Register) -> u8
        ensures { result ≡ register_level (note_of self.now) from to }
    {
        self.known_level(Variable::Register(from), Variable::Register(to))
    }

    /// The abstract value of an instruction's result.
    fn result_value(&self, instr: Instr) -> AbstractValue
        requires in_range { IsInRange instr }
        requires fits { may_be_too_large (note_of self.now) instr ≡ false }
        ensures { result ≡ result_value (note_of self.now) instr }
    {
        match instr {
            Instr::Num(_, n) => AbstractValue::Between(n, n),
            Instr::Get(_, input) => self.value_with_side(Variable::Input(input)),
            Instr::Side(_) => AbstractValue::Implies(true),
            Instr::Draw(..) | Instr::Not(..) => AbstractValue::Implies(false),
            Instr::Copy(_, a) => self.value_with_side(Variable::Register(a)),
            Instr::Add(_, a, b) => sum(self.register_value(a), self.register_value(b)),
            Instr::Sub(_, a, b) => {
                let least = least_difference(self.register_level(b, a));
                difference(self.register_value(a), self.register_value(b), least)
            }
            Instr::Mul(_, a, n) => product(self.register_value(a), n),
            Instr::Div(_, a, n) => quotient(self.register_value(a), n),
            Instr::Min(_, a, b) => smaller(self.register_value(a), self.register_value(b)),
            Instr::Max(_, a, b) => greater(self.register_value(a), self.register_value(b)),
            Instr::And(_, a, b) => AbstractValue::Implies(
                self.flag_implies(a) || self.flag_implies(b),
            ),
            Instr::Or(_, a, b) => AbstractValue::Implies(
                self.flag_implies(a) && self.flag_implies(b),
            ),
            _ => AbstractValue::Unknown,
        }
    }

    /// The levels of an instruction's result to the variables.
    fn result_to(&self, instr: Instr) -> LevelRow
        ensures { (y : AVariable) → level_in result (variable_number y) ≡ result_to (note_of self.now) instr y }
    {
        match instr {
            Instr::Get(_, input) => self.row(Variable::Input(input)),
            Instr::Copy(_, a) | Instr::Div(_, a, _) => self.row(Variable::Register(a)),
            Instr::Add(_, a, b) => {
                let by_a = self
                    .row(Variable::Register(a))
                    .slacken(self.register_value(b).high());
                let by_b = self
                    .row(Variable::Register(b))
                    .slacken(self.register_value(a).high());
                by_a.max_levels(by_b)
            }
            Instr::Sub(_, a, b) => self
                .row(Variable::Register(a))
                .sharpen(self.register_value(b).low()),
            Instr::Min(_, a, b) => {
                self.row(Variable::Register(a))
                    .max_levels(self.row(Variable::Register(b)))
            }
            Instr::Max(_, a, b) => self
                .row(Variable::Register(a))
                .min_levels(self.row(Variable::Register(b))),
            _ => LevelRow::empty(),
        }
    }

    /// The levels of the variables to an instruction's result.
    fn to_result(&self, instr: Instr) -> LevelRow
        ensures { (y : AVariable) → level_in result (variable_number y) ≡ to_result (note_of self.now) instr y }
    {
        match instr {
            Instr::Get(_, input) => self.column(Variable::Input(input)),
            Instr::Copy(_, a) => self.column(Variable::Register(a)),
            Instr::Add(_, a, b) => {
                let by_a = self
                    .column(Variable::Register(a))
                    .sharpen(self.register_value(b).low());
                let by_b = self
                    .column(Variable::Register(b))
                    .sharpen(self.register_value(a).low());
                by_a.max_levels(by_b)
            }
            Instr::Min(_, a, b) => {
                self.column(Variable::Register(a))
                    .min_levels(self.column(Variable::Register(b)))
            }
            Instr::Max(_, a, b) => {
                self.column(Variable::Register(a))
                    .max_levels(self.column(Variable::Register(b)))
            }
            _ => LevelRow::empty(),
        }
    }

    /// The note after an instruction has written its result to `dest`.
    pub(crate) fn assign_result(&self, dest: Register, instr: Instr) -> StoredNote
        requires in_range { IsInRange instr }
        requires fits { may_be_too_large (note_of self.now) instr ≡ false }
        ensures { note_of result ≡ closure (assign_result (note_of self.now) dest instr) }
    {
        let variable = Variable::Register(dest).number();
        let mut values = self.values;
        values[variable] = self.result_value(instr);
        let (row, column) = known_row_and_column(
            &values,
            variable,
            self.result_to(instr),
            self.to_result(instr),
        );
        StoredNote {
            values,
            rows: with_variable(&self.rows, variable, row, column),
            columns: with_variable(&self.columns, variable, column, row),
            side: self.side,
        }
    }
}
