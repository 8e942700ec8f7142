// Between two corner steps: trivial pairs are dropped.
#![tactic(auto)]

ghost use Rattle.std.specs.Prelude.{◌≤◌};
ghost use Rattle.router_notes.specs.Limits.{pair_limit};
ghost use Rattle.router_tidy.specs.Tidy.{Tidied};

use router_notes::Table;

// Trivial pairs are dropped; the last row takes the place of one. The count of rows that are left.
pub fn tidy(table: &mut Table, n: usize) -> usize
    requires { n ≤ pair_limit }
    ensures upper_bound { result ≤ n }
    ensures tidied { Tidied table.old n table.new result result }
{
    let mut i: usize = 0;
    let mut m = n;
    while i < m {
        if table.first[i] == table.second[i] {
            m -= 1;
            router_table::drop_row(table, i, m);
        } else {
            i += 1;
        }
    }
    m
}
