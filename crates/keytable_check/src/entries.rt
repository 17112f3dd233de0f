// The entries of the table: whether each is good, and whether two ids are equal.
ghost use Rattle.std.specs.Prelude.{◌≡◌, true, ◌+◌, ◌≤◌, ◌<◌, length};
ghost use Rattle.keytable_rules.specs.Table.{count_of, entry_place, area_at, below, is_placed, is_good_entry, is_new_id};

use crate::limits::{self, Sizes};
use common::number2_at;
use keytable_areas::{entry_at, id_of, same};

// Whether the area whose offset and length stand at `at` has a size that holds, begins at `first`, where the entries end, or later,
// and ends within the table.
fn placed(table: &[u8], at: usize, first: usize, sizes: Sizes) -> bool
    requires { (at + 3 < length table.now) × (first ≡ entry_place (count_of table.now)) }
    ensures { result ≡ is_placed table.now sizes.least sizes.most (area_at table.now at) }
{
    let offset = number2_at(table, at) as usize;
    let size = number2_at(table, at + 2) as usize;
    sizes.hold(size) && first <= offset && offset + size <= table.len()
}

// Whether entry i is good; the entries end at `first`.
fn good_entry(table: &[u8], i: usize, first: usize) -> bool
    requires { (first ≡ entry_place (count_of table.now)) × (i < count_of table.now) × (first ≤ length table.now) }
    ensures { result ≡ is_good_entry table.now i }
{
    let at = entry_at(i);
    placed(table, at, first, limits::ID)
        && placed(table, at + 4, first, limits::SECRET)
        && table[at + 8] < limits::ALGORITHMS_END
        && number2_at(table, at + 10) == 0
}

// Whether the n entries are good, which end at `first`.
pub(crate) fn good_entries(table: &[u8], n: usize, first: usize) -> bool
    requires { (n ≡ count_of table.now) × (first ≡ entry_place n) × (first ≤ length table.now) }
    ensures { result ≡ below n (is_good_entry table.now) }
{
    for i in 0..n {
        if !good_entry(table, i, first) {
            return false;
        }
    }
    true
}

// Whether id j is none of those before it.
fn new_id(table: &[u8], j: usize) -> bool
    requires { (j < count_of table.now) × (entry_place (count_of table.now) ≤ length table.now) × (below (count_of table.now) (is_good_entry table.now) ≡ true) }
    ensures { result ≡ is_new_id table.now j }
{
    let id = id_of(table, j);
    for i in 0..j {
        if same(id_of(table, i), id) {
            return false;
        }
    }
    true
}

// Whether the n ids differ, pair by pair.
pub(crate) fn new_ids(table: &[u8], n: usize) -> bool
    requires { (n ≡ count_of table.now) × (entry_place n ≤ length table.now) × (below n (is_good_entry table.now) ≡ true) }
    ensures { result ≡ below n (is_new_id table.now) }
{
    for j in 0..n {
        if !new_id(table, j) {
            return false;
        }
    }
    true
}
