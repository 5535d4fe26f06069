//! The numbers of causes and reasons, explained.

ghost use Rattle.std.specs.Prelude.{◌≡◌, ◌++◌, IfOk, OnOk, false, not};
ghost use Rattle.trlab_campaign.specs.declared.end.End.TheVariants.{Memory};
ghost use Rattle.trlab_campaign.specs.Ending.{WroteAtEnd, LeavesWriter};
ghost use Rattle.trlab_campaign.specs.Writers.{AddsNone, bytes_of};
ghost use Rattle.trlab_explain.specs.Explanations.{BeginsWith, IsNumberPage, topic_front, is_known};

use crate::explain::{Output, plain_bytes, write_explanation};
use crate::numbers::cause_numbered;
use std::alloc::{AllocGlobal, Global};
use trlab_campaign::{End, Sink};
use trlab_lines::Page;
use trlab_messages::{Draft, Result, page_of, push_cause, push_reason};
use trlab_notes::Reason;

/// A kind of number in the answers to rejected inputs.
#[derive(Clone, Copy)]
pub enum Topic {
    /// The cause of a line `fault line N cause K`.
    Cause,
    /// The reason of a line `refused at N reason R`.
    Reason,
}

/// Adds the meaning of a number, or a line that says that it is unknown. Returns whether it is unknown.
fn push_number(text: &mut Draft, topic: Topic, number: u32) -> bool
    ensures { result ≡ not (is_known topic number) }
{
    match topic {
        Topic::Cause => {
            if let Some(cause) = cause_numbered(number) {
                push_cause(text, cause);
                return false;
            }
        }
        Topic::Reason => {
            if let Some(reason) = Reason::from_number(number) {
                push_reason(text, reason);
                return false;
            }
        }
    }
    writeln!(text, "no such number.");
    true
}

/// Adds the beginning of the page on a number, for example `Cause 5: `.
fn push_topic(page: &mut Page, topic: Topic, number: u32) -> Result<()>
    ensures { OnOk result (page.new ≡ page.old ++ topic_front topic number) }
{
    match topic {
        Topic::Cause => page.say("Cause ")?,
        Topic::Reason => page.say("Reason ")?,
    }
    page.number(u64::from(number))?;
    page.say(": ")
}

/// The page on a number, rejected if the number is unknown.
fn number_page(alloc: Global, topic: Topic, number: u32) -> Result<Output>
    ensures { IfOk result (λ page. IsNumberPage topic number page.is_rejected page.bytes.items) }
{
    let mut words = Draft::new(alloc);
    let is_rejected = push_number(&mut words, topic, number);
    let mut page = Page::new(alloc);
    push_topic(&mut page, topic, number)?;
    page.add(&page_of(alloc, words.text()?)?)?;
    Ok(Output {
        is_rejected,
        bytes: plain_bytes(alloc, &page)?,
    })
}

/// Writes the meaning of the cause or reason with a number, and a hint if there is one. An unknown number is rejected.
/// If an allocation fails, nothing is written.
pub fn explain_number<R: AllocGlobal, K: Sink>(
    rt: &R,
    topic: Topic,
    number: u32,
    writer: &mut K,
) -> End
    requires writer_works { K.failed writer.old ≡ false }
    ensures ends { LeavesWriter K.Sink (WroteAtEnd (IsNumberPage topic number)) result writer.old writer.new }
    ensures kept { result ≡ Memory → AddsNone (bytes_of K.Sink writer.old) (bytes_of K.Sink writer.new) }
{
    write_explanation(number_page(rt.alloc(), topic, number), writer)
}
