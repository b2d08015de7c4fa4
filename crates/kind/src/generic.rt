// Code over any entry kind.
ghost use Rattle.std.specs.Prelude.{◌≡◌, Some};

use crate::entry_kind::EntryKind;

// A code that is read as an entry and written again is the same code.
pub fn recode<K: EntryKind>(kind: &K, code: u64) -> u64
    ensures { result ≡ code }
{
    kind.decode(code).map_or(code, |entry| kind.encode(entry))
}

// An entry of the kind that is written as a code and read back is the same entry.
pub fn again<K: EntryKind>(kind: &K, value: K::Entry) -> Option<K::Entry>
    ensures { K.EntryKind.has kind.now value → result ≡ Some value }
{
    kind.decode(kind.encode(value))
}
