// The refusals of documents 01 and 02 of a message by itself: 7 to 9, 14 and 15.
#![tactic(auto)]

ghost use Rattle.std.specs.Prelude.{◌≡◌};
ghost use Rattle.model.specs.Contents.{slot};
ghost use Rattle.model.specs.Refusal.{refused_8, unused, first_number, valid_cases};
ghost use Rattle.refusal_kind.specs.Number.{number_of};

use message_order::Slot;
use model::{Head, Message};
use refusal_kind::Refusal;

// Whether what a message speaks of is out of range: its pair, its operator or its ride.
fn outside(head: Head, message: Message) -> bool
    ensures { result ≡ refused_8 head message }
{
    match Slot::from(message) {
        Slot::Pair { operator, ride } => head.operators <= operator || head.rides <= ride,
        Slot::Operator(operator) => head.operators <= operator,
        Slot::Ride(ride) => head.rides <= ride,
    }
}

// The field that a message doesn't use; 0 where it uses both.
fn unused(message: Message) -> u16
    ensures { result ≡ unused (slot message) message }
{
    match Slot::from(message) {
        Slot::Pair { .. } => 0,
        Slot::Operator(_) => message.ride,
        Slot::Ride(_) => message.operator,
    }
}

// 7 to 9, 14 and 15 of a message.
#[tactic(auto, unfolding(model::specs::Refusal::first_number))]
pub fn check_valid(head: Head, message: Message) -> Result<(), Refusal>
    ensures { number_of result ≡ first_number (valid_cases head message) }
{
    if !matches!(message.kind, 1..=6) {
        return Err(Refusal::BadKind);
    }
    if outside(head, message) {
        return Err(Refusal::OutOfRange);
    }
    if message.stamp == 0 {
        return Err(Refusal::NoStamp);
    }
    if 255 < message.revision {
        return Err(Refusal::LargeRevision);
    }
    if unused(message) != 0 {
        return Err(Refusal::UnusedField);
    }
    Ok(())
}
