// The pair arrays after a taken message: its pair is added or removed where needed, and zeros stand behind the last pair.
#![tactic(auto)]

ghost use Rattle.std.specs.Prelude.{◌<◌, ◌≤◌, length};
ghost use Rattle.model.specs.Layout.{pair_places, graph};
ghost use Rattle.pairs.specs.Accepted.{AcceptedPairs};
ghost use Rattle.pairs_change.specs.Change.{graph_with, Listing, Arrays};

use model::Head;
use pairs::PairTable;

// Adds the pair to the listed pairs (a grant) or removes it from them (a withdrawal) where needed; the new number of pairs.
fn enter(
    head: Head,
    operator: u16,
    ride: u16,
    grant: bool,
    operators: &mut [u16],
    rides: &mut [u16],
) -> usize
    requires { AcceptedPairs head operators.old rides.old ×
        (operator < head.operators) ×
        (ride < head.rides) ×
        (pair_places head ≤ length operators.old) ×
        (pair_places head ≤ length rides.old) }
    ensures { Listing head (graph_with head operators.old rides.old operator ride grant) operators.old rides.old result
        operators.new rides.new }
{
    let pairs = head.pairs as usize;
    let table = PairTable {
        head,
        operators,
        rides,
    };
    match (grant, table.find(operator, ride)) {
        (true, Err(place)) => {
            pairs_shift::insert(operators, place, pairs, operator);
            pairs_shift::insert(rides, place, pairs, ride);
            pairs + 1
        }
        (false, Ok(place)) => {
            pairs_shift::remove(operators, place, pairs);
            pairs_shift::remove(rides, place, pairs);
            pairs - 1
        }
        _ => pairs,
    }
}

// Enters a grant or a withdrawal of a pair in the pair arrays, and zeroes their tails; the new number of pairs.
pub fn change(
    head: Head,
    operator: u16,
    ride: u16,
    grant: bool,
    operators: &mut [u16],
    rides: &mut [u16],
) -> u16
    requires { AcceptedPairs head operators.old rides.old ×
        (operator < head.operators) ×
        (ride < head.rides) ×
        (pair_places head ≤ length operators.old) ×
        (pair_places head ≤ length rides.old) }
    ensures { Arrays head (graph_with head operators.old rides.old operator ride grant) operators.old rides.old result
        operators.new rides.new }
{
    let places = head.operators as usize * head.rides as usize;
    let count = enter(head, operator, ride, grant, operators, rides);
    arrays::fill(operators, count, places, 0);
    arrays::fill(rides, count, places, 0);
    count as u16
}

// Zeroes the tails of the pair arrays, whose pairs stay.
pub fn clear_tails(head: Head, operators: &mut [u16], rides: &mut [u16])
    requires { AcceptedPairs head operators.old rides.old ×
        (pair_places head ≤ length operators.old) ×
        (pair_places head ≤ length rides.old) }
    ensures { Arrays head (graph head operators.old rides.old) operators.old rides.old head.pairs
        operators.new rides.new }
{
    let places = head.operators as usize * head.rides as usize;
    let pairs = head.pairs as usize;
    arrays::fill(operators, pairs, places, 0);
    arrays::fill(rides, pairs, places, 0);
}
