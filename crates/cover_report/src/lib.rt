// The program `cover` as a function from the bytes of its input to the bytes of its output.
#![tactic(auto)]

ghost use Rattle.std.specs.Prelude.{◌≡◌, ℕ, ◌+◌, ◌*◌, ◌≤◌, length, get_or};
ghost use Rattle.model.specs.Graph.{row as levels_row};
ghost use Rattle.model.specs.Layout.{mark_places, graph};
ghost use Rattle.cover_report.specs.Program.{cover_lines, Reported};
ghost use Rattle.cover_text.specs.Write.{Wrote};
ghost use Rattle.cover_report.specs.Sizes.{Sizes, table_text, input_text};

use graph_tables::ClearanceTables;
use index_row::RowSource;
use model::Head;
use pairs::PairTable;
use refusal_kind::Refusal;

// The levels in row α with everybody on and in, over a row of zeros. For α above rides they are 0.
fn fill_levels(table: PairTable<'_>, alpha: u16, row: &mut [u16])
    requires row { (1 ≤ alpha) × (length row.old ≡ mark_places table.head) }
    requires zeros { (k : ℕ) → get_or row.old k 0 ≡ 0 }
    ensures { row.new ≡ levels_row (graph table.entry.head table.entry.operators.now table.entry.rides.now) alpha }
{
    if alpha <= table.head.rides {
        let everybody = [1u8; 260];
        let mut by_operator = [0u8; 12000];
        let mut by_ride = [0u8; 12000];
        let degrees = graph_degrees::tabulate(table, &everybody, &mut by_operator, &mut by_ride);
        let tables = ClearanceTables {
            operators: table.head.operators as usize,
            rides: table.head.rides as usize,
            by_operator: &by_operator,
            by_ride: &by_ride,
        };
        let source = RowSource {
            tables,
            degrees: &degrees,
        };
        index_row::fill_row(source, alpha as u8, row);
    }
}

// The lines of the cover, from a row of zeros that becomes row α, or row 1 for α = 0.
fn put_lines(
    out: &mut [u8; 8192],
    table: PairTable<'_>,
    alpha: u16,
    beta: u16,
    row: &mut [u16],
) -> usize
    requires row { length row.old ≡ mark_places table.head }
    requires zeros { (k : ℕ) → get_or row.old k 0 ≡ 0 }
    ensures { Wrote out.old 0 (cover_lines table.entry.head table.entry.operators.now table.entry.rides.now alpha beta) 5490 out.new result }
{
    fill_levels(table, index_members::row(alpha), row);
    cover_lines::put_cover(
        out,
        0,
        alpha,
        beta,
        table.head.operators,
        table.head.rides,
        row,
    )
}

// The answer for the words of a pair table.
fn answer_table(
    out: &mut [u8; 8192],
    head: Head,
    operators: &[u16],
    rides: &[u16],
    alpha: u16,
    beta: u16,
) -> usize
    requires { Sizes head × (length operators.now ≡ head.pairs) × (length rides.now ≡ head.pairs) }
    ensures { Wrote out.old 0 (table_text head operators.now rides.now alpha beta) 5490 out.new result }
{
    if !pairs::ascending(head, operators, rides) {
        return cover_text::put_refusal(out, 0, Refusal::BadPair);
    }
    let table = PairTable {
        head,
        operators,
        rides,
    };
    let mut row = [0u16; 260];
    let nodes = (head.operators + head.rides) as usize;
    put_lines(out, table, alpha, beta, &mut row[..nodes])
}

// The answer for an input, with its head, once the sizes are checked.
fn answer_input(out: &mut [u8; 8192], input: &[u8], head: Head) -> usize
    requires { Sizes head × (length input.now ≡ 10 + 4 * head.pairs) }
    ensures { Wrote out.old 0 (input_text input.now head) 5490 out.new result }
{
    let n = head.pairs as usize;
    let mut operators = [0u16; 12000];
    let mut rides = [0u16; 12000];
    cover_input::copy_words(input, 3, n, &mut operators);
    cover_input::copy_words(input, 3 + n, n, &mut rides);
    let alpha = cover_input::word_at(input, 3 + 2 * n);
    let beta = cover_input::word_at(input, 4 + 2 * n);
    answer_table(out, head, &operators[0..n], &rides[0..n], alpha, beta)
}

// The output of `cover` for an input, at the start of `out`, and its length.
pub fn cover_text(input: &[u8], out: &mut [u8; 8192]) -> usize
    ensures { Reported input.now out.old out.new result }
{
    match cover_input::check_size(input) {
        Ok(head) => answer_input(out, input, head),
        Err(refusal) => cover_text::put_refusal(out, 0, refusal),
    }
}
