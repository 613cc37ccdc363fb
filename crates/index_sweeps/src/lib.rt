// One side of the clearance graph swept: its nodes that fall short of a limit are removed, and the degrees of the other side fall.
#![tactic(auto)]

ghost use Rattle.std.specs.Prelude.{◌<◌, length};
ghost use Rattle.model.specs.Count.{bit};
ghost use Rattle.index_sweeps.specs.Sweep.{Side, SideVisited, SideSwept};

// What a sweep of one side reads: the degrees of its nodes and the limit that they are held to, the level of those removed, and the side's table in rows of `width`.
#[derive(Clone, Copy)]
pub struct Sweep<'a> {
    pub degrees: &'a [u8],
    pub limit: u8,
    pub level: u16,
    pub table: &'a [u8],
    pub width: usize,
}

// Removes node i of a side where it is kept and falls short of the limit; whether it did.
fn visit_side(
    sweep: Sweep<'_>,
    kept: &mut [u8],
    levels: &mut [u16],
    others: &mut [u8],
    i: usize,
) -> bool
    requires { Side sweep.table.now sweep.width kept.old sweep.degrees.now levels.old others.old × (i < length kept.old) }
    ensures { SideVisited sweep.entry.table.now sweep.entry.width kept.old sweep.entry.degrees.now levels.old others.old
        sweep.entry.limit sweep.entry.level i (bit result) kept.new levels.new others.new }
{
    // One branch that is seldom taken, in place of two that can't be foreseen.
    if kept[i] & u8::from(sweep.degrees[i] < sweep.limit) == 0 {
        return false;
    }
    kept[i] = 0;
    levels[i] = sweep.level;
    let at = i * sweep.width;
    let end = at + others.len();
    graph_tables::subtract(others, &sweep.table[at..end]);
    true
}

// Removes the nodes of a side that fall short of the limit, all at once: their own degrees stay while the others' fall. How many they are.
pub fn sweep_side(sweep: Sweep<'_>, kept: &mut [u8], levels: &mut [u16], others: &mut [u8]) -> usize
    requires { Side sweep.table.now sweep.width kept.old sweep.degrees.now levels.old others.old }
    ensures { SideSwept sweep.entry.table.now sweep.entry.width kept.old sweep.entry.degrees.now levels.old
        sweep.entry.limit sweep.entry.level (length kept.old) result kept.new levels.new others.new }
{
    let mut removed = 0;
    for i in 0..kept.len() {
        removed += usize::from(visit_side(sweep, kept, levels, others, i));
    }
    removed
}
