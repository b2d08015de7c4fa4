// Duties as an entry kind.
ghost use Rattle.std.specs.Prelude.{◌≡◌};
ghost use Rattle.kind.specs.Kinds.{every};
ghost use Rattle.kind.specs.Duties.{duty_code, duty_of};
ghost use Rattle.kind.specs.DutyLaw.{duty_there, duty_back};
ghost use Rattle.std.proofs.Common.{rules};

use crate::duty::Duty;
use crate::entry_kind::EntryKind;

// A code is pilot + PILOTS * (berth + BERTHS * watch).
const PILOTS: u64 = 1024;

const BERTHS: u64 = 256;

#[derive(Clone, Copy, PartialEq, Eq, Debug)]
pub struct Duties;

impl EntryKind for Duties {
    type Entry = Duty;

    ghost has = { every };

    ghost coded = { λ _. duty_code };

    ghost decoded = { λ _. duty_of };

    ghost fits = { Prim.search rules };

    ghost there = { λ k e h. duty_there e };

    ghost back = { λ k. duty_back };

    ghost own = { Prim.search rules };

    fn encode(&self, value: Duty) -> u64 {
        let place = u64::from(value.berth) + BERTHS * u64::from(value.watch);
        u64::from(value.pilot) + PILOTS * place
    }

    fn decode(&self, code: u64) -> Option<Duty> {
        let place = code / PILOTS;
        let watch = u8::try_from(place / BERTHS).ok()?;
        // remainders are cast, since `try_from` would add refusals that cannot come
        Duty::new((code % PILOTS) as u16, (place % BERTHS) as u8, watch)
    }
}
