// Whether the bytes of a key table are in order.
#![tactic(auto)]

mod entries;
mod limits;

ghost use Rattle.std.specs.Prelude.{◌≡◌, not};
ghost use Rattle.keytable_rules.specs.Table.{bad_table};

use crate::entries::{good_entries, new_ids};
use common::{number2_at, number4_at};
use keytable_areas::entry_at;

// The one edition that there is.
const EDITION: u32 = 1;

// Whether the table is in order. Rules out a table let through though its total length isn't the lent one, and one refused or let
// through because its ids are compared by their first bytes only.
#[tactic(auto, using(keytable_rules::proofs::TableLaws::crowded), unfolding(keytable_rules::specs::Table::bad_table))]
pub fn good(table: &[u8]) -> bool
    ensures { result ≡ not (bad_table table.now) }
{
    if !limits::TABLE.hold(table.len()) || number2_at(table, 0) != EDITION {
        return false;
    }
    let n = number2_at(table, 2) as usize;
    let total = number4_at(table, 4) as usize;
    let first = entry_at(n);
    if limits::KEYS_MOST < n || total != table.len() || total < first {
        return false;
    }
    good_entries(table, n, first) && new_ids(table, n)
}
