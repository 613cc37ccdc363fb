// The pair arrays: the check of their order and range, and the table of those that are accepted, which finds a pair's place.
#![tactic(auto)]

ghost use Rattle.std.specs.Prelude.{◌≡◌, false, not, ◌&&◌, ◌||◌, ◌<◌, ◌≤◌, ltb, is_ok, IfOk, IfErr, length};
ghost use Rattle.model.specs.Count.{bit, count};
ghost use Rattle.model.specs.Layout.{pair_at, listed};
ghost use Rattle.model.specs.Refusal.{before, out_of_range, misplaced as misplaced_at, refused_5};
ghost use Rattle.pairs.specs.Accepted.{AcceptedPairs};
ghost use Rattle.pairs.specs.Place.{FirstPlace};

use model::Head;

// A pair table that is accepted: of document 01's numbers 1, 2 and 5 none applies to it, nor 3 to its arrays.
#[derive(Clone, Copy)]
pub struct PairTable<'a> {
    pub head: Head,
    pub operators: &'a [u16],
    pub rides: &'a [u16],
    ghost accepted: { AcceptedPairs head operators.now rides.now },
}

// 1 where a pair is out of range, or not after the one before it. By value and with `|` and `&`, so that a loop over places has no branches.
fn misplaced(head: Head, u0: u16, v0: u16, u: u16, v: u16) -> u16
    ensures { result ≡ bit (out_of_range head u v || not (before u0 v0 u v)) }
{
    u16::from((head.operators <= u) | (head.rides <= v) | !((u0 < u) | (u0 == u) & (v0 < v)))
}

// How many pairs are misplaced, where the first is not.
fn count_misplaced(head: Head, operators: &[u16], rides: &[u16]) -> u16
    requires { (head.pairs ≤ length operators.now) × (head.pairs ≤ length rides.now) ×
        (1 ≤ head.pairs) × (misplaced_at head operators.now rides.now 0 ≡ false) }
    ensures { result ≡ count head.pairs (misplaced_at head operators.now rides.now) }
{
    let mut sum = 0;
    for i in 1..head.pairs as usize {
        sum += misplaced(head, operators[i - 1], rides[i - 1], operators[i], rides[i]);
    }
    sum
}

// Whether the listed pairs are in range and strictly ascending: document 01's number 5 does not apply.
pub fn ascending(head: Head, operators: &[u16], rides: &[u16]) -> bool
    requires { (head.pairs ≤ length operators.now) × (head.pairs ≤ length rides.now) }
    ensures { result ≡ not (refused_5 head operators.now rides.now) }
{
    if head.pairs == 0 {
        return true;
    }
    if head.operators <= operators[0] {
        return false;
    }
    if head.rides <= rides[0] {
        return false;
    }
    count_misplaced(head, operators, rides) == 0
}

impl PairTable<'_> {
    // The first place whose pair is not before (operator, ride), by halving: pairs are in order as their numbers are.
    pub fn place_of(self, operator: u16, ride: u16) -> usize
        requires { (operator < self.head.operators) × (ride < self.head.rides) }
        ensures { FirstPlace self.entry.head self.entry.operators.now self.entry.rides.now operator ride result }
    {
        let m = self.head.rides;
        let number = operator * m + ride;
        let mut low = 0;
        let mut high = self.head.pairs as usize;
        while low < high {
            let middle = low + (high - low) / 2;
            if self.operators[middle] * m + self.rides[middle] < number {
                low = middle + 1;
            } else {
                high = middle;
            }
        }
        low
    }

    // Whether (operator, ride) stands at a place, one of the first as many as pairs.
    fn stands_at(self, place: usize, operator: u16, ride: u16) -> bool
        ensures { result ≡ (ltb place self.entry.head.pairs && pair_at self.entry.operators.now self.entry.rides.now operator ride place) }
    {
        place < self.head.pairs as usize
            && self.operators[place] == operator
            && self.rides[place] == ride
    }

    // The place of (operator, ride) where it is listed; else, as an error, the place to insert it at.
    pub fn find(self, operator: u16, ride: u16) -> Result<usize, usize>
        requires { (operator < self.head.operators) × (ride < self.head.rides) }
        ensures listed { is_ok result ≡ listed self.entry.head.pairs self.entry.operators.now self.entry.rides.now operator ride }
        ensures ok { IfOk result (FirstPlace self.entry.head self.entry.operators.now self.entry.rides.now operator ride) }
        ensures err { IfErr result (FirstPlace self.entry.head self.entry.operators.now self.entry.rides.now operator ride) }
    {
        let place = self.place_of(operator, ride);
        if self.stands_at(place, operator, ride) {
            Ok(place)
        } else {
            Err(place)
        }
    }

    // Whether (operator, ride) is listed.
    pub fn is_listed(self, operator: u16, ride: u16) -> bool
        requires { (operator < self.head.operators) × (ride < self.head.rides) }
        ensures { result ≡ listed self.entry.head.pairs self.entry.operators.now self.entry.rides.now operator ride }
    {
        self.find(operator, ride).is_ok()
    }
}
