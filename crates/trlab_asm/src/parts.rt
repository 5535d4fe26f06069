//! The results of the first pass: the pc of each label, and a draft of each instruction with its line number.

ghost use Rattle.std.specs.Prelude.{◌≡◌, ◌≤◌, length};
ghost use Rattle.trlab_bounds.specs.declared.programs.TheConstants.{MAX_INSTRUCTIONS};

use crate::fault::AsmFault;
use crate::reading::{InstrDraft, Labels, Line, read_line};
use std::alloc::{AllocError, Global};
use std::marker::Model;

/// A draft of an instruction, and its line number.
#[derive(Drop)]
pub(crate) struct LineDraft<'a> {
    line: usize,
    draft: InstrDraft<'a>,
}

impl<'a> Model for LineDraft<'a> {
    ghost use Rattle.trlab_asm.specs.Assembly.{LineDraft as Reading};

    ghost Value = { Reading };

    ghost view = { λ read. record { line = read.line; draft = read.draft } };
}

impl<'a> LineDraft<'a> {
    pub(crate) fn line(&self) -> usize
        ensures { result ≡ self.now.line }
    {
        self.line
    }

    pub(crate) fn draft(&self) -> &InstrDraft<'a>
        ensures { result.now ≡ self.now.draft }
    {
        &self.draft
    }
}

/// The labels of a text and the drafts of its instructions.
#[derive(Drop)]
pub(crate) struct Parts<'a> {
    labels: Labels<'a>,
    drafts: Vec<LineDraft<'a>>,
    ghost at_most_max_instructions: { length drafts.items ≤ MAX_INSTRUCTIONS },
}

impl<'a> Parts<'a> {
    ghost use Rattle.std.specs.Prelude.{◌<◌, IfOk, OnOk, OnSome, length};
    ghost use Rattle.trlab_asm.specs.Reading.{line_content};
    ghost use Rattle.trlab_asm.specs.Assembly.{no_parts, in_line, with_line};
    ghost use Rattle.trlab_asm.specs.Stored.{pcs, stored_parts};

    /// The parts of an empty text.
    pub(crate) fn new(alloc: Global) -> Parts<'a>
        ensures { stored_parts result ≡ no_parts }
    {
        Parts {
            labels: Labels::new(alloc),
            drafts: Vec::new(alloc),
        }
    }

    pub(crate) fn labels(&self) -> &Labels<'a>
        ensures { pcs result.now ≡ (stored_parts self.now).labels }
    {
        &self.labels
    }

    pub(crate) fn drafts(&self) -> &[LineDraft<'a>]
        ensures value { result.now ≡ (stored_parts self.now).drafts }
        ensures at_most_max_instructions { length result.now ≤ MAX_INSTRUCTIONS }
    {
        &self.drafts
    }

    /// Reads the next line; a fault gets `number` as its line number.
    pub(crate) fn read_line(&self, number: usize, line: &'a [u8]) -> Result<Line<'a>, AsmFault>
        ensures value { result ≡ in_line number
            (line_content (stored_parts self.now).labels (length (stored_parts self.now).drafts) line.now) }
        ensures room { IfOk result (λ content.
            OnSome content.draft (length (stored_parts self.now).drafts < MAX_INSTRUCTIONS)) }
    {
        read_line(&self.labels, self.drafts.len(), line).map_err(|why| AsmFault {
            line: number,
            why,
        })
    }

    /// Adds a line. Its label names its instruction, or the next one if the line has none.
    pub(crate) fn add(&mut self, number: usize, line: Line<'a>) -> Result<(), AllocError>
        requires { OnSome line.draft (length (stored_parts self.old).drafts < MAX_INSTRUCTIONS) }
        ensures { OnOk result (stored_parts self.new ≡ with_line (stored_parts self.old) number line.entry) }
    {
        let pc = self.drafts.len() as u32;
        let Line { label, draft } = line;
        if let Some(draft) = draft {
            self.drafts.push(LineDraft {
                line: number,
                draft,
            })?;
        }
        match label {
            Some(name) => self.labels.add(name, pc),
            None => Ok(()),
        }
    }
}
