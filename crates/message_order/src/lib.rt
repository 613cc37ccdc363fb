// What a message speaks of, and whether it is later than the last of its pair, operator or ride: by the stamp, the revision, and whether each gives.
#![tactic(auto)]

ghost use Rattle.std.specs.Prelude.{◌≡◌};
ghost use Rattle.model.specs.Count.{bit};
ghost use Rattle.model.specs.Contents.{giving, later, entry, slot};
ghost use Rattle.message_order.specs.Slot.{slot_is};

use model::Message;

// What a message speaks of.
#[derive(Clone, Copy, Debug, PartialEq, Eq)]
pub enum Slot {
    Pair { operator: u16, ride: u16 },
    Operator(u16),
    Ride(u16),
}

impl From<Message> for Slot {
    ghost from_gives = { λ message slot_of. slot_is slot_of ≡ slot message };

    fn from(message: Message) -> Slot {
        match message.kind {
            0..=2 => Slot::Pair {
                operator: message.operator,
                ride: message.ride,
            },
            3 | 4 => Slot::Operator(message.operator),
            _ => Slot::Ride(message.ride),
        }
    }
}

// Whether a kind gives: 1 grant, 3 operator on, 5 ride in.
pub fn gives(kind: u16) -> bool
    ensures { result ≡ giving kind }
{
    matches!(kind, 1 | 3 | 5)
}

// Whether a message is later than the last of its slot, of this stamp and revision, which gives or takes away.
pub fn is_later(message: Message, stamp: u32, revision: u16, given: bool) -> bool
    ensures { result ≡ later (entry message) (record { stamp = stamp; revision = revision; word = bit given }) }
{
    (stamp, revision, !given) < (message.stamp, message.revision, !gives(message.kind))
}
