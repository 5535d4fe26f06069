//! Refusals: the first fault of a line or of a text, and the input that the reader wanted instead.

ghost use Rattle.std.specs.Prelude.{◌≡◌};
ghost use Rattle.trlab_texts.specs.Causes.{IsWanted, IsWantedFor};
ghost use Rattle.trlab_texts.specs.declared.refusal.Wanted.TheVariants.{Nothing};

use crate::excerpt::Excerpt;
use crate::fault::{Cause, TextFault};
use crate::line_name::LineNames;
use std::marker::Model;
use trlab_code::Code;

/// The quantity that a number of a line states.
#[derive(Clone, Copy, Debug, PartialEq, Eq)]
pub enum Quantity {
    /// A probability, times 2^31.
    Probability,
    /// The cars of a road with this many cells.
    Cars { cells: u32 },
    /// Anything else.
    Other,
}

/// The input that a reader wanted when it rejected a file.
#[derive(Drop)]
pub enum Wanted<'a> {
    /// Nothing to add to the cause.
    Nothing,
    /// One of these lines; `End` inside a program.
    Lines(LineNames),
    /// A number from `least` to `most` instead of this word.
    Number {
        word: Excerpt<'a>,
        least: u64,
        most: u64,
        quantity: Quantity,
    },
    /// Hexadecimal digits instead of these bytes.
    Digits(Excerpt<'a>),
    /// A second lane; the line with the number `line` has the first lane, or the number of lanes.
    SecondLane {
        line: u32,
    },
    /// A step from `least` on, below `steps`.
    Step {
        least: u32,
        steps: u32,
    },
    /// Fewer steps: `points` points of `steps` steps each are too many.
    Work {
        points: u32,
        steps: u32,
    },
    /// As many cells as the first lane has; 0 if the first lane is too long.
    Cells {
        first: u32,
    },
    /// At most this speed.
    Speed {
        limit: u32,
    },
    /// A program without the fault that the verifier found in `code` at the instruction `at`, counted from 0.
    Program {
        code: Code,
        at: u32,
    },
}

/// The cause of a line's fault, and the input that was wanted instead.
#[derive(Drop)]
pub struct Objection<'a> {
    cause: Cause,
    wanted: Wanted<'a>,
}

impl<'a> Model for Objection<'a> {
    ghost use Rattle.trlab_texts.specs.declared.fault.Cause.{Cause as WhatIsWrong};
    ghost use Rattle.trlab_texts.specs.Causes.{IsWantedFor};

    ghost Value = { WhatIsWrong };

    ghost view = { λ objection. objection.cause };

    ghost invariant = { λ objection. IsWantedFor objection.cause objection.wanted };
}

impl<'a> Objection<'a> {
    /// An objection, and the input that was wanted.
    pub fn new(cause: Cause, wanted: Wanted<'a>) -> Objection<'a>
        requires { IsWantedFor cause wanted }
        ensures { result ≡ cause }
    {
        Objection { cause, wanted }
    }

    /// An objection whose cause says everything.
    pub fn bare(cause: Cause) -> Objection<'a>
        requires { IsWantedFor cause Nothing }
        ensures { result ≡ cause }
    {
        Objection::new(cause, Wanted::Nothing)
    }

    /// The objection that another line is wanted.
    pub fn no_line() -> Objection<'a>
        ensures { result ≡ Cause.Line }
    {
        Objection::new(Cause::Line, Wanted::Lines(LineNames::none()))
    }

    /// The refusal of a text because of this line. If its cause is `Line`, a line with one of these names is
    /// wanted.
    pub fn at(self, number: u32, names: LineNames) -> Refusal<'a>
        ensures { result ≡ TextFault.At number self.entry }
    {
        let Objection { cause, wanted } = self;
        match cause {
            Cause::Line => Refusal::no_line(number, names),
            cause => Refusal {
                fault: TextFault::At {
                    line: number,
                    cause,
                },
                wanted,
            },
        }
    }
}

/// Why a text was rejected, and the input that was wanted at its first fault.
pub struct Refusal<'a> {
    fault: TextFault,
    wanted: Wanted<'a>,
}

// Not derived: a derived drop is proved again, field by field, wherever the value goes out of scope.
impl<'a> Drop for Refusal<'a> {
    fn drop(self) {
        let Refusal {
            fault: _fault,
            wanted: _wanted,
        } = self;
    }
}

impl<'a> Model for Refusal<'a> {
    ghost use Rattle.trlab_texts.specs.declared.fault.TextFault.{TextFault as FirstFault};
    ghost use Rattle.trlab_texts.specs.Causes.{IsWanted};

    ghost Value = { FirstFault };

    ghost view = { λ refusal. refusal.fault };

    ghost invariant = { λ refusal. IsWanted refusal.fault refusal.wanted };
}

impl<'a> Refusal<'a> {
    /// A refusal, and the input that was wanted.
    pub fn new(fault: TextFault, wanted: Wanted<'a>) -> Refusal<'a>
        requires { IsWanted fault wanted }
        ensures { result ≡ fault }
    {
        Refusal { fault, wanted }
    }

    /// A refusal whose fault says everything.
    pub fn bare(fault: TextFault) -> Refusal<'a>
        requires { IsWanted fault Nothing }
        ensures { result ≡ fault }
    {
        Refusal::new(fault, Wanted::Nothing)
    }

    /// The refusal of a text because an allocation failed.
    pub fn memory() -> Refusal<'a>
        ensures { result ≡ TextFault.Memory }
    {
        Refusal::bare(TextFault::Memory)
    }

    /// The refusal of a text because a line with one of these names is missing at this line number.
    pub fn no_line(number: u32, names: LineNames) -> Refusal<'a>
        ensures { result ≡ TextFault.At number Cause.Line }
    {
        let fault = TextFault::At {
            line: number,
            cause: Cause::Line,
        };
        Refusal::new(fault, Wanted::Lines(names))
    }

    /// The first fault of the text, or a failed allocation.
    pub fn fault(&self) -> TextFault
        ensures { result ≡ self.now }
    {
        self.fault
    }

    /// The fault, and the input that was wanted.
    pub fn into_parts(self) -> (TextFault, Wanted<'a>)
        ensures fault { result.0 ≡ self.entry }
        ensures wanted { IsWanted result.0 result.1 }
    {
        let Refusal { fault, wanted } = self;
        (fault, wanted)
    }
}
