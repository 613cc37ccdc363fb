// The limits of a peel or a cover: one word for each node, as marks lie, operators first and then rides; and the limits of those marked in bytes.
#![tactic(auto)]

ghost use Rattle.std.specs.Prelude.{◌≡◌, true, false, ℕ, ◌+◌, ◌-◌, ◌≤◌, ◌<◌, min, eqb, length, get_or};
ghost use Rattle.model.specs.Graph.{present, ride_limit};
ghost use Rattle.model.specs.Layout.{mark_places};
ghost use Rattle.model.specs.Calls.{peel_limits};
ghost use Rattle.limits.specs.Limits.{limit_of, byte_limit, LongEnough};

use model::Head;

// What the limits of a peel or a cover are made from: the presence words, the rides' minimums, and the limits of operators and of rides.
#[derive(Clone, Copy)]
pub struct Asked<'a> {
    pub presence: &'a [u16],
    pub minimums: &'a [u16],
    pub alpha: u16,
    pub beta: u16,
}

// The limit of a node by its word: without a word of 1 it is the high one.
fn node_limit(word: u16, limit: u16, high: u16) -> u16
    ensures { result ≡ elim (eqb word 1) [ true ↦ limit | false ↦ high ] }
{
    if word == 1 { limit } else { high }
}

// The limit of a ride: its own minimum, or beta where that is 0.
fn own_limit(minimum: u16, beta: u16) -> u16
    ensures { result ≡ elim (eqb minimum 0) [ true ↦ beta | false ↦ minimum ] }
{
    if minimum == 0 { beta } else { minimum }
}

// The limits of operators, by their words.
fn fill_operators(presence: &[u16], alpha: u16, high: u16, limits: &mut [u16])
    requires { length limits.old ≤ length presence.now }
    ensures { (u : ℕ) → u < length limits.old → limit_of limits.new u ≡ elim (present presence.now u) [ true ↦ alpha | false ↦ high ] }
{
    for u in 0..limits.len() {
        limits[u] = node_limit(presence[u], alpha, high);
    }
}

// The limits of rides, by their words and minimums.
fn fill_rides(presence: &[u16], minimums: &[u16], beta: u16, high: u16, limits: &mut [u16])
    requires { (length limits.old ≤ length presence.now) × (length limits.old ≤ length minimums.now) }
    ensures { (v : ℕ) → v < length limits.old →
        limit_of limits.new v ≡ elim (present presence.now v) [ true ↦ ride_limit minimums.now beta v | false ↦ high ] }
{
    for v in 0..limits.len() {
        limits[v] = node_limit(presence[v], own_limit(minimums[v], beta), high);
    }
}

// The limits of a peel (alpha, beta) with minimums: whoever is off or out falls short. The high limit is above the number of nodes, which no degree
// exceeds.
pub fn fill(head: Head, asked: Asked<'_>, limits: &mut [u16])
    requires { (head.operators ≤ 200) × (head.rides ≤ 60) × LongEnough head asked × (mark_places head ≤ length limits.old) }
    ensures { (x : ℕ) → x < mark_places head →
        limit_of limits.new x ≡ peel_limits head asked.entry.presence.now asked.entry.minimums.now asked.entry.alpha asked.entry.beta x }
{
    let n = head.operators as usize;
    let m = head.rides as usize;
    let high = head.operators + head.rides + 1;
    fill_operators(&asked.presence[..n], asked.alpha, high, &mut limits[..n]);
    fill_rides(
        &asked.presence[n..n + m],
        &asked.minimums[..m],
        asked.beta,
        high,
        &mut limits[n..n + m],
    );
}

// The limit of a node in a byte, by its mark.
fn byte(limit: u16, mark: u16) -> u8
    ensures { result ≡ elim (eqb mark 1) [ true ↦ min limit 255 | false ↦ 0 ] }
{
    if mark == 1 { limit.min(255) as u8 } else { 0 }
}

// The limits of those marked in bytes.
pub fn bytes(limits: &[u16], marks: &[u16], nodes: usize) -> [u8; 260]
    requires { (nodes ≤ 260) × (nodes ≤ length limits.now) × (nodes ≤ length marks.now) }
    ensures { (x : ℕ) → x < nodes → get_or result x 0 ≡ byte_limit (limit_of limits.now) marks.now x }
{
    let mut all = [0u8; 260];
    for x in 0..nodes {
        all[x] = byte(limits[x], marks[x]);
    }
    all
}
