//! Programs that the verifier has accepted, with their budgets. Each kind is a type of its own, so no motion
//! program is run as a change program.

ghost use Rattle.std.specs.Prelude.{◌≡◌, ◌↔◌, IsTrue, IfOk};
ghost use Rattle.trlab_code.specs.declared.program.Kind.{Kind as AKind};
ghost use Rattle.trlab_code.specs.declared.program.Kind.TheVariants.{Motion as OfMotion, Change as OfChange};
ghost use Rattle.trlab_code.specs.Machine.{IsSafe};
ghost use Rattle.trlab_verify.specs.Verified.{IsChecked};
ghost use Rattle.trlab_verify.specs.Verdict.{IsLongest};

use std::alloc::{AllocError, Global};
use std::marker::{Model, PhantomData};
use trlab_code::{Code, Kind};

/// Copies a program.
pub fn copy_of(alloc: Global, code: &Code) -> Result<Code, AllocError>
    ensures { IfOk result (λ copy. copy ≡ code.now) }
{
    let instrs = Vec::from_slice(alloc, code.instrs())?;
    match Code::new(code.kind(), instrs) {
        Some(copy) => Ok(copy),
        None => unreachable!(),
    }
}

/// Whether two programs have the same kind and the same instructions.
pub fn are_same(code: &Code, other: &Code) -> bool
    ensures { IsTrue result ↔ (code.now ≡ other.now) }
{
    code.kind() == other.kind() && code.instrs() == other.instrs()
}

/// A kind of programs, as a type.
pub trait ProgramKind {
    ghost KIND: { AKind };

    const KIND: Kind;
}

/// The kind of motion programs.
#[derive(Clone, Copy)]
pub struct MotionKind;

/// The kind of change programs.
#[derive(Clone, Copy)]
pub struct ChangeKind;

impl ProgramKind for MotionKind {
    ghost KIND = { OfMotion };

    const KIND: Kind = Kind::Motion;
}

impl ProgramKind for ChangeKind {
    ghost KIND = { OfChange };

    const KIND: Kind = Kind::Change;
}

/// An accepted program of a kind: safe for every view and all random words within its budget.
pub struct AcceptedProgram<K: ProgramKind> {
    code: Code,
    budget: u32,
    kind: PhantomData<K>,
}

// Not derived: a derived drop is proved again, field by field, wherever the value goes out of scope.
impl<K: ProgramKind> Drop for AcceptedProgram<K> {
    fn drop(self) {
        let AcceptedProgram {
            code: _code,
            budget: _budget,
            kind: _kind,
        } = self;
    }
}

/// An accepted motion program.
pub type Motion = AcceptedProgram<MotionKind>;

/// An accepted change program.
pub type Change = AcceptedProgram<ChangeKind>;

impl<K: ProgramKind> Model for AcceptedProgram<K> {
    ghost use Rattle.trlab_verify.specs.Verified.{CheckedProgram, IsChecked};

    ghost Value = { CheckedProgram };

    ghost view = { λ accepted. record { program = accepted.code; budget = accepted.budget } };

    ghost invariant = { λ accepted.
        IsChecked K.KIND (record { program = accepted.code; budget = accepted.budget }) };
}

impl<K: ProgramKind> AcceptedProgram<K> {
    pub(crate) fn new(code: Code, budget: u32) -> AcceptedProgram<K>
        requires { IsChecked K.KIND (record { program = code; budget = budget }) }
        ensures program { result.program ≡ code }
        ensures budget { result.budget ≡ budget }
    {
        AcceptedProgram {
            code,
            budget,
            kind: PhantomData,
        }
    }

    /// The program without its budget.
    pub fn code(&self) -> &Code
        ensures value { result.now ≡ self.now.program }
        ensures checked { IsChecked K.KIND self.now }
    {
        &self.code
    }

    /// The length of the longest path through the program, in instructions, the end included: no call takes more.
    pub fn budget(&self) -> u32
        ensures value { result ≡ self.now.budget }
        ensures safe { IsSafe K.KIND self.now.program.instrs result }
        ensures longest { IsLongest self.now.program.instrs 0 result }
    {
        self.budget
    }

    /// Copies the program.
    ///
    /// # Errors
    ///
    /// If an allocation fails.
    pub fn copy(&self, alloc: Global) -> Result<AcceptedProgram<K>, AllocError>
        ensures { IfOk result (λ copy. copy ≡ self.now) }
    {
        let code = copy_of(alloc, self.code())?;
        Ok(AcceptedProgram::new(code, self.budget))
    }

    /// Whether two programs have the same instructions.
    pub fn equals(&self, other: &AcceptedProgram<K>) -> bool
        ensures { IsTrue result ↔ (self.now ≡ other.now) }
    {
        are_same(self.code(), other.code())
    }
}
