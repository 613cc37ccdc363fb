// Who is in a cover (alpha, beta), by levels: the row that is read, and the least level with which a node is in.
#![tactic(auto)]

ghost use Rattle.std.specs.Prelude.{◌≡◌};
ghost use Rattle.model.specs.Graph.{row_for};
ghost use Rattle.index_members.specs.Members.{least_level};

// Row alpha, or row 1 where alpha is 0.
pub fn row(alpha: u16) -> u16
    ensures { result ≡ row_for alpha }
{
    alpha.max(1)
}

// The least level with which a node is in: 0 where its own limit is 0, else beta, and at least 1.
pub fn least(limit: u16, beta: u16) -> u16
    ensures { result ≡ least_level limit beta }
{
    if limit == 0 { 0 } else { beta.max(1) }
}
