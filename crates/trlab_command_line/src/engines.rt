//! Carries out a request: an engine runs from a reader to a writer, or a page is written.

ghost use Rattle.std.specs.Prelude.{◌≡◌, false};
ghost use Rattle.trlab_command_line.specs.CommandLine.{FitsEngines};
ghost use Rattle.trlab_command_line.specs.Ends.{RequestEnds};

use crate::{ExplainRequest, Request};
use std::alloc::AllocGlobal;
use std::sync::Wait;
use std::thread::Threads;
use trlab_campaign::{
    End, ProgressObserver, ShownSteps, Sink, Source, Windows, check_text, run_series_text,
    run_shown_text, run_sweep_with_progress,
};
use trlab_explain::{explain_number, explain_text};

/// Carries out a request: reads the input from `reader`, and writes the output to `writer`. A request to explain a
/// number reads nothing. `progress` observes a run, a sweep or a series.
///
/// If an allocation fails, a run and a series have written a prefix of their output, and any other request nothing.
pub fn execute<
    R: AllocGlobal + Threads + Wait + Sync,
    S: Source,
    K: Sink,
    O: ProgressObserver + Sync,
>(rt: &R, request: Request, reader: &mut S, writer: &mut K, progress: &O) -> End
    requires counts { FitsEngines request }
    requires reader_works { S.failed reader.old ≡ false }
    requires writer_works { K.failed writer.old ≡ false }
    ensures { RequestEnds S.Source K.Sink request result reader.old reader.new writer.old writer.new }
{
    match request {
        Request::Check => check_text(rt, reader, writer),
        Request::Run {
            workers,
            every,
            from,
            ..
        } => {
            let shown = ShownSteps::new(every, from);
            run_shown_text(rt, reader, writer, workers, &shown, progress)
        }
        Request::Sweep {
            runners,
            workers,
            ..
        } => run_sweep_with_progress(rt, reader, writer, runners, workers, progress),
        Request::Series {
            workers,
            every,
            from,
            ..
        } => {
            let windows = Windows::new(every, from);
            run_series_text(rt, reader, writer, workers, &windows, progress)
        }
        Request::Explain(ExplainRequest::Text(subject, form)) => {
            explain_text(rt, form, subject, reader, writer)
        }
        Request::Explain(ExplainRequest::Number(topic, number)) => {
            explain_number(rt, topic, number, writer)
        }
    }
}
