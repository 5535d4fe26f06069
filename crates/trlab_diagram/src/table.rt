//! The table of points, as comma-separated values (RFC 4180, with LF for CRLF).

ghost use Rattle.std.specs.Prelude.{◌≡◌, All, IfOk};
ghost use Rattle.csv.specs.Records.{fields_of};
ghost use Rattle.csv.specs.Writing.{default_writer, row_text};
ghost use Rattle.trlab_diagram.specs.Tables.{IsMeasured, points_heading, line_text, point_line, points_text};

use crate::point::{Point, flow};
use csv::{ByteRecord, Writer};
use std::alloc::{AllocError, Global};
use thiserror::Error;

/// Why a table of points or windows could not be made.
#[derive(Clone, Copy, Debug, PartialEq, Eq, Error)]
pub enum DiagramFault {
    /// An allocation failed.
    #[error("out of memory")]
    Memory,
}

impl From<AllocError> for DiagramFault {
    fn from(_: AllocError) -> DiagramFault {
        DiagramFault::Memory
    }
}

// A table is written to memory, so writing fails only if an allocation fails.
impl From<csv::Error> for DiagramFault {
    fn from(_: csv::Error) -> DiagramFault {
        DiagramFault::Memory
    }
}

/// The fields of the first line.
fn heading_row(alloc: Global) -> Result<ByteRecord, AllocError>
    ensures { IfOk result (λ row. row_text default_writer (fields_of row) ≡ line_text points_heading) }
{
    let mut row = ByteRecord::new(alloc);
    for name in [
        "cars", "cells", "steps", "distance", "stopped", "changes", "flow",
    ] {
        row.push_field(name.as_bytes())?;
    }
    Ok(row)
}

/// The fields of a point's line.
fn point_row(alloc: Global, point: &Point) -> Result<ByteRecord, DiagramFault>
    requires { IsMeasured point.now }
    ensures { IfOk result (λ row.
        row_text default_writer (fields_of row) ≡ line_text (point_line point.now)) }
{
    let counts = [
        point.cars,
        point.cells,
        point.steps,
        point.distance,
        point.stopped,
        point.changes,
    ];
    let mut row = ByteRecord::new(alloc);
    for count in counts {
        row.push_field(count.to_string(alloc)?.as_bytes())?;
    }
    row.push_field(flow(point).to_string(alloc)?.as_bytes())?;
    Ok(row)
}

/// The table of points, in bytes: the heading `cars,cells,steps,distance,stopped,changes,flow`, then a line for
/// each point with these numbers in decimal digits. An LF ends each line.
///
/// Each point must have at least one cell and one step.
///
/// # Errors
///
/// `Memory` if an allocation fails.
pub fn points_text(alloc: Global, points: &[Point]) -> Result<Vec<u8>, DiagramFault>
    requires { All IsMeasured points.now }
    ensures { IfOk result (λ text. text.items ≡ points_text points.now) }
{
    let mut writer = Writer::from_writer(Vec::new(alloc));
    writer.write_byte_record(&heading_row(alloc)?)?;
    for point in points {
        writer.write_byte_record(&point_row(alloc, point)?)?;
    }
    match writer.into_inner() {
        Ok(text) => Ok(text),
        Err(_) => Err(DiagramFault::Memory),
    }
}
