// The keys that a table's bytes mean. The table is read at each call, straight from its bytes; ids and secrets are handed on as parts of it.
#![tactic(auto)]

ghost use Rattle.std.specs.Prelude.{◌≡◌, true, false, ◌+◌, ◌≤◌, ◌<◌, length, get_or, MatchOption};
ghost use Rattle.keytable_rules.specs.Key.{key, allows_hs256, allows_format, find};
ghost use Rattle.keytable_rules.specs.Table.{entry_size, entry_place, bad_table, keys};

use common::number2_at;
use keytable_areas::{area, entry_at, id_of, same};

// A table that is in order.
#[derive(Clone, Copy)]
pub struct KeyTable<'a> {
    pub bytes: &'a [u8],
    pub ghost in_order: { bad_table bytes.now ≡ false },
}

impl<'a> KeyTable<'a> {
    // The table that these bytes are, or none where they aren't in order. Rules out a table that is bad, and one in order refused.
    pub fn new(bytes: &'a [u8]) -> Option<KeyTable<'a>>
        ensures { MatchOption result (bad_table bytes.now ≡ true) (λ t. t.bytes.now ≡ bytes.now) }
    {
        if keytable_check::good(bytes) {
            Some(KeyTable { bytes })
        } else {
            None
        }
    }

    // How many keys there are. Rules out the edition in its place, and a count read one byte on.
    pub fn count(self) -> usize
        ensures { result ≡ length (keys self.entry.bytes.now) }
    {
        number2_at(self.bytes, 2) as usize
    }

    // Key i. Rules out the first key for every index, and the next one.
    pub fn key(self, index: usize) -> KeyEntry<'a>
        requires { index < length (keys self.bytes.now) }
        ensures { (result.index ≡ index) × (result.table.bytes.now ≡ self.entry.bytes.now) }
    {
        KeyEntry { table: self, index }
    }

    // The index of the key with this id. Rules out an index one off, and a key whose id only begins so.
    pub fn find(self, wanted: &[u8]) -> Option<usize>
        ensures { result ≡ find wanted.now (keys self.entry.bytes.now) }
    {
        for i in 0..self.count() {
            if same(self.key(i).id(), wanted) {
                return Some(i);
            }
        }
        None
    }
}

// A key of a table that is in order.
#[derive(Clone, Copy)]
pub struct KeyEntry<'a> {
    pub table: KeyTable<'a>,
    pub index: usize,
    pub ghost counted: { index < length (keys table.bytes.now) },
}

impl<'a> KeyEntry<'a> {
    // Its id. Rules out the secret in its place, and the id of the first key.
    pub fn id(self) -> &'a [u8]
        ensures { result.now ≡ (key (keys self.entry.table.bytes.now) self.entry.index).id }
    {
        id_of(self.table.bytes, self.index)
    }

    // Its secret. Rules out the id in its place, and the secret of the next key.
    pub fn secret(self) -> &'a [u8]
        ensures { result.now ≡ (key (keys self.entry.table.bytes.now) self.entry.index).secret }
    {
        area(self.table.bytes, entry_at(self.index) + 4)
    }

    // Byte k of its entry.
    fn byte(self, k: usize) -> u8
        requires { k < entry_size }
        ensures { result ≡ get_or self.entry.table.bytes.now (entry_place self.entry.index + k) 0 }
    {
        self.table.bytes[entry_at(self.index) + k]
    }

    // Whether it allows HS256. Rules out a look at the formats, and the bit turned round.
    pub fn allows_hs256(self) -> bool
        ensures { result ≡ allows_hs256 (key (keys self.entry.table.bytes.now) self.entry.index) }
    {
        self.byte(8) % 2 == 1
    }

    // Whether it allows format f. Rules out the next format's bit, and bits counted from the other end.
    pub fn allows_format(self, f: u8) -> bool
        requires { (1 ≤ f) × (f ≤ 8) }
        ensures { result ≡ allows_format (key (keys self.entry.table.bytes.now) self.entry.index) f }
    {
        (self.byte(9) >> (f - 1)) % 2 == 1
    }
}
