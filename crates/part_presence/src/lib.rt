// The presence stamps, revisions and words of operators and rides, as marks lie: those of a build, the place of a message's operator or ride, whether
// the message is later than its last, and the store of a taken message.
#![tactic(auto)]

ghost use Rattle.std.specs.Prelude.{◌≡◌, List, ℕ, ◌≤◌, ◌<◌, length, set};
ghost use Rattle.model.specs.Count.{bit};
ghost use Rattle.model.specs.Layout.{lent, mark_places};
ghost use Rattle.model.specs.Contents.{giving, slot};
ghost use Rattle.model.specs.Refusal.{refused_10};
ghost use Rattle.arrays.specs.Filled.{filled};
ghost use Rattle.part_presence.specs.Presence.{node_place};

use message_order::Slot;
use model::{Head, Message};
use part_board::BoardRef;

// Sets everybody on and in, with stamp and revision 0.
pub fn set_all(head: Head, stamps: &mut [u32], revisions: &mut [u16], presence: &mut [u16])
    requires stamps { mark_places head ≤ length stamps.old }
    requires revisions { mark_places head ≤ length revisions.old }
    requires words { mark_places head ≤ length presence.old }
    ensures stamps { stamps.new ≡ filled 0 (mark_places head) 0 stamps.old }
    ensures revisions { revisions.new ≡ filled 0 (mark_places head) 0 revisions.old }
    ensures words { presence.new ≡ filled 0 (mark_places head) 1 presence.old }
{
    let nodes = head.operators as usize + head.rides as usize;
    arrays::fill(stamps, 0, nodes, 0);
    arrays::fill(revisions, 0, nodes, 0);
    arrays::fill(presence, 0, nodes, 1);
}

// The place of a message's operator or ride; a pair has none.
fn place(head: Head, message: Message) -> usize
    ensures { result ≡ node_place head (slot message) }
{
    match Slot::from(message) {
        Slot::Pair { .. } => 0,
        Slot::Operator(operator) => operator as usize,
        Slot::Ride(ride) => head.operators as usize + ride as usize,
    }
}

// Whether a message for an operator or ride in range is not later than its last.
pub fn not_later(board: BoardRef<'_>, message: Message) -> bool
    requires kind { 3 ≤ message.kind }
    requires stamps { node_place board.head (slot message) < length board.presence_stamps.now }
    requires revisions { node_place board.head (slot message) < length board.presence_revisions.now }
    requires words { node_place board.head (slot message) < length board.presence.now }
    ensures { (operators rides stamps' revisions' index : List ℕ) → result ≡ refused_10
        (lent board.entry.head operators rides stamps' revisions' index
        board.entry.presence_stamps.now board.entry.presence_revisions.now board.entry.presence.now) message }
{
    let at = place(board.head, message);
    let stamp = board.presence_stamps[at];
    let revision = board.presence_revisions[at];
    let word = board.presence[at];
    !message_order::is_later(message, stamp, revision, word == 1)
}

// Stores the stamp, the revision and the word of a taken message for an operator or ride.
pub fn store(
    head: Head,
    message: Message,
    stamps: &mut [u32],
    revisions: &mut [u16],
    presence: &mut [u16],
)
    requires stamps { node_place head (slot message) < length stamps.old }
    requires revisions { node_place head (slot message) < length revisions.old }
    requires words { node_place head (slot message) < length presence.old }
    ensures stamps { stamps.new ≡ set stamps.old (node_place head (slot message)) message.stamp }
    ensures revisions { revisions.new ≡ set revisions.old (node_place head (slot message)) message.revision }
    ensures words { presence.new ≡ set presence.old (node_place head (slot message)) (bit (giving message.kind)) }
{
    let at = place(head, message);
    stamps[at] = message.stamp;
    revisions[at] = message.revision;
    presence[at] = u16::from(message_order::gives(message.kind));
}
