// Licences as an entry kind.
ghost use Rattle.std.specs.Prelude.{◌≡◌};
ghost use Rattle.kind.specs.Kinds.{every};
ghost use Rattle.kind.specs.Licences.{held_of, suspended_of, licence_code, licence_of};
ghost use Rattle.kind.specs.LicenceLaw.{licence_there, licence_back};
ghost use Rattle.std.proofs.Common.{rules};

use crate::entry_kind::EntryKind;
use crate::licence::{HeldLicence, Licence, Suspension};

// A code is 1, 2 or 3 times STATE for held, suspended or expired, and below that the class times
// CLASS and the last day, or the reason.
const STATE: u64 = 0x1_0000_0000;

const CLASS: u64 = 0x1_0000;

#[derive(Clone, Copy, PartialEq, Eq, Debug)]
pub struct Licences;

impl EntryKind for Licences {
    type Entry = Licence;

    ghost has = { every };

    ghost coded = { λ _. licence_code };

    ghost decoded = { λ _. licence_of };

    ghost fits = { Prim.search rules };

    ghost there = { λ k e h. licence_there e };

    ghost back = { λ k. licence_back };

    ghost own = { Prim.search rules };

    fn encode(&self, value: Licence) -> u64 {
        match value {
            Licence::Held(held) => {
                STATE + u64::from(held.class) * CLASS + u64::from(held.last_day)
            }
            Licence::Suspended(suspension) => 2 * STATE + u64::from(suspension.reason),
            Licence::Expired => 3 * STATE,
        }
    }

    fn decode(&self, code: u64) -> Option<Licence> {
        let rest = code % STATE;
        match code / STATE {
            1 => held(rest),
            2 => suspended(rest),
            3 if rest == 0 => Some(Licence::Expired),
            _ => None,
        }
    }
}

// A held licence by the lower half of its code.
fn held(rest: u64) -> Option<Licence>
    ensures { result ≡ held_of rest }
{
    let class = u8::try_from(rest / CLASS).ok()?;
    // a remainder is cast, since `try_from` would add a refusal that cannot come
    HeldLicence::new(class, (rest % CLASS) as u16).map(Licence::Held)
}

// A suspended licence by the lower half of its code.
fn suspended(rest: u64) -> Option<Licence>
    ensures { result ≡ suspended_of rest }
{
    Suspension::new(u8::try_from(rest).ok()?).map(Licence::Suspended)
}
