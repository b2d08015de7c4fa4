// Bare codes as an entry kind: each code is its own entry.
ghost use Rattle.std.specs.Prelude.{◌^◌, ◌<◌, Some};
ghost use Rattle.std.proofs.Common.{rules};

use crate::entry_kind::EntryKind;

#[derive(Clone, Copy, PartialEq, Eq, Debug)]
pub struct Codes;

impl EntryKind for Codes {
    type Entry = u64;

    ghost has = { λ _ e. e < 2 ^ 64 };

    ghost coded = { λ _ e. e };

    ghost decoded = { λ _ c. Some c };

    ghost fits = { Prim.search rules };

    ghost there = { Prim.search rules };

    ghost back = { Prim.search rules };

    ghost own = { Prim.search rules };

    fn encode(&self, value: u64) -> u64 {
        value
    }

    fn decode(&self, code: u64) -> Option<u64> {
        Some(code)
    }
}
