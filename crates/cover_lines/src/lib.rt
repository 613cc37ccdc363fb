// Writers of the lines of a cover: each stores its lines from the place `at` on, and answers the place after them.
#![tactic(auto)]

ghost use Rattle.std.specs.Prelude.{◌≡◌, ◌+◌, ◌*◌, ◌≤◌, leb, length, slice_index};
ghost use Rattle.model.specs.Count.{count};
ghost use Rattle.cover_text.specs.Text.{member_lines, member_line, report_text};
ghost use Rattle.cover_text.specs.Write.{Wrote};
ghost use Rattle.model.specs.Graph.{limits, in_by_level};
ghost use Rattle.index_members.specs.Members.{level_at};

// A node is in the cover exactly if its level is at least `least`.
fn put_member(out: &mut [u8], at: usize, name: &[u8], number: u16, level: u16, least: u16) -> usize
    requires { (length name.now ≤ 9) × (at + 21 ≤ length out.old) }
    ensures { Wrote out.old at (member_line name.now (leb least level) number level) 21 out.new result }
{
    if least <= level {
        cover_text::put_node(out, at, name, number, level)
    } else {
        at
    }
}

// The lines of those in the cover, by the levels of the nodes.
fn put_members(out: &mut [u8], at: usize, name: &[u8], levels: &[u16], least: u16) -> usize
    requires { (length name.now ≤ 9) × (length levels.now ≤ 200) × (at + 21 * length levels.now ≤ length out.old) }
    ensures { Wrote out.old at
        (member_lines name.now (λ i. leb least (slice_index levels.now i)) (slice_index levels.now) (length levels.now)) (21 * length levels.now)
        out.new result }
{
    let mut end = at;
    for (i, level) in levels.iter().enumerate() {
        end = put_member(out, end, name, i as u16, *level, least);
    }
    end
}

// How many are in the cover, by the levels of the nodes.
fn count_members(levels: &[u16], least: u16) -> u16
    requires { length levels.now ≤ 200 }
    ensures { result ≡ count (length levels.now) (λ i. leb least (slice_index levels.now i)) }
{
    levels.iter().filter(|level| least <= **level).count() as u16
}

// The whole text, from the levels in row α, or in row 1 for α = 0.
pub fn put_cover(
    out: &mut [u8],
    at: usize,
    alpha: u16,
    beta: u16,
    operators: u16,
    rides: u16,
    levels: &[u16],
) -> usize
    requires { (operators ≤ 200) × (rides ≤ 60) × (operators + rides ≤ length levels.now) × (at + 5490 ≤ length out.old) }
    ensures { Wrote out.old at
        (report_text alpha beta operators rides
        (λ x. in_by_level (limits operators alpha beta x) beta (level_at levels.now 0 x))
        (level_at levels.now 0))
        5490 out.new result }
{
    let (operator_levels, others) = levels.split_at(usize::from(operators));
    let ride_levels = &others[..usize::from(rides)];
    let operator_least = index_members::least(alpha, beta);
    let ride_least = index_members::least(beta, beta);
    let operator_count = count_members(operator_levels, operator_least);
    let ride_count = count_members(ride_levels, ride_least);
    let first = cover_text::put_first(out, at, alpha, beta, operator_count, ride_count);
    let second = put_members(out, first, b"operator ", operator_levels, operator_least);
    put_members(out, second, b"ride ", ride_levels, ride_least)
}
