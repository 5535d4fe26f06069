//! Causes by their numbers.

ghost use Rattle.std.specs.Prelude.{◌≡◌, IfSome, is_some, nat_eq};
ghost use Rattle.std.specs.List.{find};
ghost use Rattle.trlab_texts.specs.Causes.{cause_number};
ghost use Rattle.trlab_explain.specs.Explanations.{is_known};
ghost use Rattle.trlab_explain.specs.declared.topics.Topic.TheVariants.{Cause as OfCause};

use trlab_asm::Why;
use trlab_code::CodeFault;
use trlab_notes::Reason;
use trlab_road::RoadFault;
use trlab_texts::Cause;

/// If the verifier rejects a program, the number of the cause is this number plus the number of the verifier's reason.
const REASON_OFFSET: u32 = 40;

/// The causes, except those of the verifier's reasons. The position of a cause does not change its number, so each
/// cause is listed once, with the position 0. The last cause can be explained, although no input has it.
const CAUSES: [Cause; 30] = [
    Cause::Line,
    Cause::Number,
    Cause::Key,
    Cause::OneLane,
    Cause::Order,
    Cause::TooMany,
    Cause::Work,
    Cause::Hex,
    Cause::TooBig,
    Cause::Program(Why::Word),
    Cause::Program(Why::Operand),
    Cause::Program(Why::Number),
    Cause::Program(Why::LabelTwice),
    Cause::Program(Why::NoLabel),
    Cause::Program(Why::TooLong),
    Cause::Program(Why::Empty),
    Cause::Code(CodeFault::Short),
    Cause::Code(CodeFault::Magic),
    Cause::Code(CodeFault::Version),
    Cause::Code(CodeFault::Kind),
    Cause::Code(CodeFault::Count),
    Cause::Code(CodeFault::Opcode(0)),
    Cause::Code(CodeFault::Field(0)),
    Cause::Code(CodeFault::Trailing),
    Cause::Code(CodeFault::NeedlessVersion),
    Cause::Road(RoadFault::Length),
    Cause::Road(RoadFault::Character { lane: 0, place: 0 }),
    Cause::Road(RoadFault::SpeedAboveLimit { lane: 0, place: 0 }),
    Cause::Road(RoadFault::TooManyCars),
    Cause::StandardRefused,
];

/// The first cause of `CAUSES` with this number.
fn cause_in_list(number: u32) -> Option<Cause>
    ensures { result ≡ find (λ cause. nat_eq (cause_number cause) number) CAUSES }
{
    CAUSES
        .iter()
        .copied()
        .find(|cause| cause.number() == u64::from(number))
}

/// The cause with this number, if there is one.
pub fn cause_numbered(number: u32) -> Option<Cause>
    ensures known { is_some result ≡ is_known OfCause number }
    ensures number { IfSome result (λ cause. cause_number cause ≡ number) }
{
    if let Some(cause) = cause_in_list(number) {
        return Some(cause);
    }
    let reason = Reason::from_number(number.checked_sub(REASON_OFFSET)?)?;
    Some(Cause::Verdict(reason.number()))
}
