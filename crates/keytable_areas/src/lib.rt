// The entries and areas of the key table: where an entry begins, the bytes of an area, and equal bytes.
#![tactic(auto)]

ghost use Rattle.std.specs.Prelude.{◌≡◌, ◌+◌, ◌≤◌, ◌<◌, length};
ghost use Rattle.common.specs.First.{Decides};
ghost use Rattle.keytable_rules.specs.Table.{entry_place, area_at, part, id_area, id_of};

use common::{number2_at, word8_at};

// The bytes before the entries, and those of an entry.
const HEAD: usize = 8;

const ENTRY: usize = 12;

// Where entry i begins; for i = n, where the entries end. Rules out the entry after it, and entries of another size.
pub fn entry_at(i: usize) -> usize
    requires { entry_place i < 18446744073709551616 }
    ensures { result ≡ entry_place i }
{
    HEAD + ENTRY * i
}

// The bytes of the area whose offset and length stand at `at`. Rules out one byte less, and an area that begins where the entry does.
pub fn area(table: &[u8], at: usize) -> &[u8]
    requires { (at + 3 < length table.now) × ((area_at table.now at).offset + (area_at table.now at).size ≤ length table.now) }
    ensures { result.now ≡ part table.now (area_at table.now at) }
{
    let start = number2_at(table, at) as usize;
    let size = number2_at(table, at + 2) as usize;
    &table[start..start + size]
}

// The id that entry i places. Rules out the secret in its place, and the id of the next entry.
pub fn id_of(table: &[u8], i: usize) -> &[u8]
    requires { (entry_place i + 3 < length table.now) × ((id_area table.now i).offset + (id_area table.now i).size ≤ length table.now) }
    ensures { result.now ≡ id_of table.now i }
{
    area(table, entry_at(i))
}

// Whether two slices have the same bytes, eight at a time, since `==` looks at one after the other below 32; the last eight may overlap those
// before them. By `while`: a range by steps, or of the words' numbers, takes longer for ids of a word or two.
// Rules out slices that are only as long as one another, and one that is the beginning of the other.
pub fn same(a: &[u8], b: &[u8]) -> bool
    ensures { Decides (a.now ≡ b.now) result }
{
    let n = a.len();
    if n != b.len() {
        return false;
    }
    if n < 8 {
        return a == b;
    }
    let last = n - 8;
    let mut i: usize = 0;
    while i < last {
        if word8_at(a, i) != word8_at(b, i) {
            return false;
        }
        i += 8;
    }
    word8_at(a, last) == word8_at(b, last)
}
