// The peel of a pair table: its pairs are read, its limits filled, and marks are cleared.
#![tactic(auto)]

ghost use Rattle.std.specs.Prelude.{◌≡◌, List, ℕ, ◌+◌, ◌≤◌, length};
ghost use Rattle.model.specs.Graph.{Graph, settled};
ghost use Rattle.model.specs.Layout.{counting_graph, mark_places};
ghost use Rattle.model.specs.Calls.{peeled, peel_limits};
ghost use Rattle.graph_tables.specs.Table.{Tables};
ghost use Rattle.limits.specs.Limits.{limit_of, LongEnough};
ghost use Rattle.peel_run.specs.Steps.{StateOf};
ghost use Rattle.peel_pairs.specs.Peel.{Ready, Gives};

use graph_degrees::Degrees;
use limits::Asked;
use model::{Head, Peeled};
use pairs::PairTable;
use peel_run::State;

// Whether nobody falls short.
fn is_settled(state: State) -> bool
    ensures { (g : Graph) (limit : ℕ → ℕ) (limits marks : List ℕ) → StateOf g limit state limits marks → result ≡ settled g limit marks }
{
    state.next.is_none()
}

// Peel: clears marks, each time the lowest operator that falls short of its limit, else the lowest ride, in at most the allowed steps.
fn peel_tables(
    head: Head,
    by_operator: &[u8],
    by_ride: &[u8],
    degrees: Degrees,
    limits: &[u16],
    marks: &mut [u16],
    allowed: u16,
) -> Peeled
    requires { ((g : Graph) × Ready g head degrees.operators degrees.rides marks.old × Tables g by_operator.now by_ride.now) ×
        (mark_places head ≤ length limits.now) }
    ensures { (g : Graph) → Ready g head degrees.operators degrees.rides marks.old →
        Tables g by_operator.now by_ride.now →
        Gives (peeled g (limit_of limits.now) allowed marks.old) result marks.new }
{
    let nodes = head.operators as usize + head.rides as usize;
    let mut bytes = limits::bytes(limits, marks, nodes);
    let all = graph_degrees::joined(head, degrees);
    let first = State::start(head, all, &bytes);
    let last = peel_run::run(first, by_operator, by_ride, &mut bytes, marks, allowed);
    Peeled {
        code: 0,
        settled: u16::from(is_settled(last)),
        steps: last.steps,
    }
}

// Peels under the limits (alpha, beta) with minimums those pairs that count.
pub fn peel_over(table: PairTable<'_>, asked: Asked<'_>, marks: &mut [u16], steps: u16) -> Peeled
    requires { LongEnough table.head asked × (mark_places table.head ≤ length marks.old) }
    ensures { Gives
        (peeled (counting_graph table.entry.head table.entry.operators.now table.entry.rides.now asked.entry.presence.now)
        (peel_limits table.entry.head asked.entry.presence.now asked.entry.minimums.now asked.entry.alpha asked.entry.beta) steps marks.old)
        result marks.new }
{
    let head = table.head;
    let here = graph_degrees::present_and_marked(head, asked.presence, marks);
    let mut by_operator = [0u8; 12000];
    let mut by_ride = [0u8; 12000];
    let degrees = graph_degrees::tabulate(table, &here, &mut by_operator, &mut by_ride);
    let mut limits = [0u16; 260];
    limits::fill(head, asked, &mut limits);
    peel_tables(head, &by_operator, &by_ride, degrees, &limits, marks, steps)
}
