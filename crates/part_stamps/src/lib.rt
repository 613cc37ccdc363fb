// The stamps and revisions of pairs: a pair's place among them, the stamps of a build, whether a listed pair has none, whether a message is later
// than its pair's last, and the store of a taken message.
#![tactic(auto)]

ghost use Rattle.std.specs.Prelude.{◌≡◌, List, ℕ, ◌*◌, ◌<◌, ◌≤◌, length, get_or, set};
ghost use Rattle.model.specs.Layout.{lent, pair_places, over, listed, graph};
ghost use Rattle.model.specs.Contents.{pair_place};
ghost use Rattle.model.specs.Refusal.{refused_6, refused_10};
ghost use Rattle.pairs.specs.Accepted.{AcceptedPairs};
ghost use Rattle.part_stamps.specs.Stamps.{Stamped, start_stamps};

use model::{Head, Message};
use pairs::PairTable;

// The place of a pair's stamp, and of its revision.
fn place(head: Head, operator: u16, ride: u16) -> usize
    ensures { result ≡ pair_place head operator ride }
{
    operator as usize * head.rides as usize + ride as usize
}

// Stamps the listed pairs, where all stamps are 0.
fn stamp_pairs(table: PairTable<'_>, start: u32, stamps: &mut [u32])
    requires places { pair_places table.head ≤ length stamps.old }
    requires by_index { (k : ℕ) → k < pair_places table.head → get_or stamps.old k 0 ≡ 0 }
    ensures { Stamped (listed table.entry.head.pairs table.entry.operators.now table.entry.rides.now)
        table.entry.head.operators table.entry.head.rides start stamps.old
        stamps.new }
{
    for k in 0..table.head.pairs as usize {
        let at = place(table.head, table.operators[k], table.rides[k]);
        stamps[at] = start;
    }
}

// Sets the stamps of a build.
pub fn fill(table: PairTable<'_>, start: u32, stamps: &mut [u32])
    requires { pair_places table.head ≤ length stamps.old }
    ensures { stamps.new ≡ over (start_stamps (graph table.entry.head table.entry.operators.now table.entry.rides.now) start) stamps.old }
{
    let places = table.head.operators as usize * table.head.rides as usize;
    arrays::fill(stamps, 0, places, 0);
    stamp_pairs(table, start, stamps);
}

// Whether a listed pair has stamp 0.
pub fn missing(table: PairTable<'_>, stamps: &[u32]) -> bool
    requires { pair_places table.head ≤ length stamps.now }
    ensures { (revisions index stamps' revisions' presence : List ℕ) →
        result ≡ refused_6 (lent table.entry.head table.entry.operators.now table.entry.rides.now stamps.now revisions index stamps' revisions' presence) }
{
    for k in 0..table.head.pairs as usize {
        if stamps[place(table.head, table.operators[k], table.rides[k])] == 0 {
            return true;
        }
    }
    false
}

// Whether a message for a pair in range is not later than the pair's last. Only where it decides is the pair looked up.
pub fn not_later(table: PairTable<'_>, message: Message, stamps: &[u32], revisions: &[u16]) -> bool
    requires { (pair_places table.head ≤ length stamps.now) × (pair_places table.head ≤ length revisions.now) ×
        (message.operator < table.head.operators) × (message.ride < table.head.rides) × (message.kind ≤ 2) }
    ensures { (index stamps' revisions' presence : List ℕ) → result ≡ refused_10
        (lent table.entry.head table.entry.operators.now table.entry.rides.now stamps.now revisions.now index stamps' revisions' presence) message }
{
    let at = place(table.head, message.operator, message.ride);
    let stamp = stamps[at];
    let revision = revisions[at];
    if !message_order::is_later(message, stamp, revision, true) {
        return true;
    }
    if message_order::is_later(message, stamp, revision, false) {
        return false;
    }
    !table.is_listed(message.operator, message.ride)
}

// Stores the stamp and the revision of a taken message for a pair.
pub fn store(head: Head, message: Message, stamps: &mut [u32], revisions: &mut [u16])
    requires { (pair_place head message.operator message.ride < length stamps.old) ×
        (pair_place head message.operator message.ride < length revisions.old) }
    ensures { (stamps.new ≡ set stamps.old (pair_place head message.operator message.ride) message.stamp) ×
        (revisions.new ≡ set revisions.old (pair_place head message.operator message.ride) message.revision) }
{
    let at = place(head, message.operator, message.ride);
    stamps[at] = message.stamp;
    revisions[at] = message.revision;
}
