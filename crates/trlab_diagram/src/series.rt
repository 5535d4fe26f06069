//! The table of a series, line by line, as comma-separated values (RFC 4180, with LF for CRLF).

ghost use Rattle.std.specs.Prelude.{◌≡◌, ◌++◌, ◌<◌, ◌^◌, [], All, map, decimal, IfOk, OnOk};
ghost use Rattle.csv.specs.Records.{fields_of, partial_of};
ghost use Rattle.csv.specs.Writing.{default_writer, row_text};
ghost use Rattle.trlab_diagram.specs.Tables.{IsMeasured, series_heading, window_line, window_text, line_text};
ghost use Rattle.trlab_diagram.specs.Tables.{IsAtLineStart};

use crate::point::{Window, flow};
use crate::table::DiagramFault;
use csv::{ByteRecord, Writer};
use itoa::Buffer;
use std::alloc::{AllocError, Global};
use std::marker::Model;

/// The number of bytes above which a writer is replaced, because it keeps the bytes of all its lines.
const MAX_WRITER_BYTES: usize = 16_384;

/// The fields of the first line.
fn heading_row(alloc: Global) -> Result<ByteRecord, AllocError>
    ensures { IfOk result (λ row. row_text default_writer (fields_of row) ≡ line_text series_heading) }
{
    let mut row = ByteRecord::new(alloc);
    for name in [
        "step",
        "cars",
        "cells",
        "steps",
        "distance",
        "stopped",
        "changes",
        "flow",
        "cars0",
        "distance0",
        "stopped0",
        "cars1",
        "distance1",
        "stopped1",
    ] {
        row.push_field(name.as_bytes())?;
    }
    Ok(row)
}

/// Adds a field for each count.
fn push_counts(row: &mut ByteRecord, counts: &[u64]) -> Result<(), DiagramFault>
    requires { partial_of row.old ≡ [] }
    ensures fields { OnOk result (fields_of row.new ≡ fields_of row.old ++ map decimal counts.now) }
    ensures whole { OnOk result (partial_of row.new ≡ []) }
    ensures small { All (λ count. count < 2 ^ 64) counts.now }
{
    let mut digits = Buffer::new();
    for count in counts {
        row.push_field(digits.format(*count).as_bytes())?;
    }
    Ok(())
}

/// Replaces the fields of a row by those of a window's line.
fn put_window(row: &mut ByteRecord, window: &Window) -> Result<(), DiagramFault>
    requires { IsMeasured window.now.point }
    ensures { OnOk result (row_text default_writer (fields_of row.new) ≡ line_text (window_line window.now)) }
{
    let Window {
        step,
        point,
        lane0,
        lane1,
    } = *window;
    let road = [
        step,
        point.cars,
        point.cells,
        point.steps,
        point.distance,
        point.stopped,
        point.changes,
    ];
    let lanes = [
        lane0.cars,
        lane0.distance,
        lane0.stopped,
        lane1.cars,
        lane1.distance,
        lane1.stopped,
    ];
    row.clear();
    push_counts(row, &road)?;
    row.push_field(Buffer::new().format(flow(&point)).as_bytes())?;
    push_counts(row, &lanes)?;
    Ok(())
}

/// Writes a line with these fields, and returns its text.
fn written_line(
    alloc: Global,
    writer: &mut Writer<Vec<u8>>,
    row: &ByteRecord,
) -> Result<Vec<u8>, DiagramFault>
    requires { IsAtLineStart writer.old }
    ensures text { IfOk result (λ text. text.items ≡ row_text default_writer (fields_of row.now)) }
    ensures ready { OnOk result (IsAtLineStart writer.new) }
{
    let before = writer.get_ref().len();
    writer.write_byte_record(row)?;
    writer.flush()?;
    Ok(Vec::from_slice(alloc, &writer.get_ref()[before..])?)
}

/// The first line of a series, in bytes:
/// `step,cars,cells,steps,distance,stopped,changes,flow,cars0,distance0,stopped0,cars1,distance1,stopped1`
/// and an LF.
///
/// # Errors
///
/// `Memory` if an allocation fails.
pub fn series_heading(alloc: Global) -> Result<Vec<u8>, DiagramFault>
    ensures { IfOk result (λ text. text.items ≡ line_text series_heading) }
{
    let mut writer = Writer::from_writer(Vec::new(alloc));
    written_line(alloc, &mut writer, &heading_row(alloc)?)
}

/// Makes the lines of windows, and reuses its memory from line to line.
pub struct SeriesLines {
    writer: Writer<Vec<u8>>,
    row: ByteRecord,
}

// Not derived: a derived drop is proved again, field by field, wherever the value goes out of scope.
impl Drop for SeriesLines {
    fn drop(self) {
        let SeriesLines {
            writer: _writer,
            row: _row,
        } = self;
    }
}

impl Model for SeriesLines {
    ghost Value = { Unit {0} };

    ghost view = { λ _. tt };

    ghost invariant = { λ lines. IsAtLineStart lines.writer };
}

impl SeriesLines {
    /// A maker that has made no line yet.
    pub fn new(alloc: Global) -> SeriesLines {
        SeriesLines {
            writer: Writer::from_writer(Vec::new(alloc)),
            row: ByteRecord::new(alloc),
        }
    }

    /// The line of a window as bytes: its numbers in decimal, separated by commas, and an LF.
    ///
    /// The window must have at least one cell and one step.
    ///
    /// # Errors
    ///
    /// `Memory` if an allocation fails.
    pub fn window_text(&mut self, alloc: Global, window: &Window) -> Result<Vec<u8>, DiagramFault>
        requires { IsMeasured window.now.point }
        ensures { IfOk result (λ text. text.items ≡ window_text window.now) }
    {
        put_window(&mut self.row, window)?;
        let line = written_line(alloc, &mut self.writer, &self.row);
        if line.is_err() || self.writer.get_ref().len() > MAX_WRITER_BYTES {
            self.writer = Writer::from_writer(Vec::new(alloc));
        }
        line
    }
}
