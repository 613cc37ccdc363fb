// The run of a peel: its state travels by value with the lent marks, and each step drops the lowest node that falls short and hands on the next state.
#![tactic(auto)]

ghost use Rattle.std.specs.Prelude.{◌≡◌, ℕ, ◌+◌, ◌<◌, ◌≤◌};
ghost use Rattle.model.specs.Graph.{Graph};
ghost use Rattle.model.specs.Layout.{mark_places};
ghost use Rattle.graph_tables.specs.Table.{Tables};
ghost use Rattle.peel_run.specs.Steps.{Started, StateOf, Lowered, Stepped};
ghost use Rattle.peel_run.specs.Run.{Ran};

use graph_drops::{look_from, lowest_short, subtract_row};
use graph_tables::ClearanceTables;
use model::Head;

// The state of a peel: the remaining degree of every node (operators first, then rides; 0 where it wasn't marked at the start), the sizes, the steps
// taken, and the node that is dropped next: the lowest that falls short, if one does.
#[derive(Clone, Copy)]
pub struct State {
    pub degrees: [u8; 260],
    pub operators: u16,
    pub rides: u16,
    pub steps: u16,
    pub next: Option<u16>,
}

impl State {
    // The first state, from the degrees in the pairs of marked nodes and the limits of those marked.
    pub fn start(head: Head, degrees: [u8; 260], limits: &[u8; 260]) -> State
        requires { mark_places head ≤ 260 }
        ensures { Started head degrees limits.now result }
    {
        let nodes = head.operators as usize + head.rides as usize;
        let next = lowest_short(&degrees, limits, 0, nodes);
        State {
            degrees,
            operators: head.operators,
            rides: head.rides,
            steps: 0,
            next: next.map(|x| x as u16),
        }
    }

    // The next state, after the row of the next node, x, was subtracted: its mark is cleared, the step counted, and the lowest that now falls short
    // found. After an operator nobody below it can have come to fall short; after a ride an operator may have.
    pub fn step(self, x: usize, limits: &mut [u8; 260], marks: &mut [u16]) -> State
        requires { ((g : Graph) × (limit : ℕ → ℕ) × Lowered g limit self x limits.old marks.old) × (x < self.operators + self.rides) × (self.steps < 65535) }
        ensures { (g : Graph) (limit : ℕ → ℕ) → Lowered g limit self x limits.old marks.old →
            Stepped g limit self x marks.old result limits.new marks.new }
    {
        let operators = self.operators as usize;
        let nodes = operators + self.rides as usize;
        limits[x] = 0;
        marks[x] = 0;
        let degrees = self.degrees;
        let from = look_from(&degrees, limits, operators, x);
        let next = lowest_short(&degrees, limits, from, nodes);
        State {
            degrees,
            steps: self.steps + 1,
            next: next.map(|x| x as u16),
            ..self
        }
    }
}

// The state after steps that each clear the lowest node that falls short, as many as are allowed and needed.
pub fn run(
    first: State,
    by_operator: &[u8],
    by_ride: &[u8],
    limits: &mut [u8; 260],
    marks: &mut [u16],
    allowed: u16,
) -> State
    requires { ((g : Graph) × (limit : ℕ → ℕ) × Tables g by_operator.now by_ride.now × StateOf g limit first limits.old marks.old) ×
        (first.steps ≡ 0) }
    ensures { (g : Graph) (limit : ℕ → ℕ) → Tables g by_operator.now by_ride.now →
        StateOf g limit first limits.old marks.old →
        Ran g limit allowed marks.old result limits.new marks.new }
{
    let tables = ClearanceTables {
        operators: first.operators as usize,
        rides: first.rides as usize,
        by_operator,
        by_ride,
    };
    let mut state = first;
    for _ in 0..allowed {
        let Some(x) = state.next else {
            break;
        };
        let x = x as usize;
        // In the state's own array, and not in one that the step hands on: the state is copied once a step so.
        subtract_row(tables, &mut state.degrees, x);
        state = state.step(x, limits, marks);
    }
    state
}
