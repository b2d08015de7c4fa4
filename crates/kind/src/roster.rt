// The roster's kinds: a granule holds duties or licences, by its number.
ghost use Rattle.std.specs.Prelude.{◌≡◌};
ghost use Rattle.kind.specs.Roster.{kind_at, of_kind, roster_code, roster_entry};
ghost use Rattle.kind.specs.RosterLaw.{roster_there, roster_back};
ghost use Rattle.std.proofs.Common.{rules};

use crate::duties::Duties;
use crate::duty::Duty;
use crate::entry_kind::EntryKind;
use crate::licence::Licence;
use crate::licences::Licences;

#[derive(Clone, Copy, PartialEq, Eq, Debug)]
pub enum RosterKind {
    Duty,
    Licence,
}

#[derive(Clone, Copy, PartialEq, Eq, Debug)]
pub enum RosterEntry {
    Duty(Duty),
    Licence(Licence),
}

impl RosterKind {
    // Duties in granules 0 to 7, licences above.
    pub fn of(granule: usize) -> RosterKind
        ensures { result ≡ kind_at granule }
    {
        if granule < 8 {
            RosterKind::Duty
        } else {
            RosterKind::Licence
        }
    }
}

impl EntryKind for RosterKind {
    type Entry = RosterEntry;

    ghost has = { of_kind };

    ghost coded = { λ _. roster_code };

    ghost decoded = { roster_entry };

    ghost fits = { Prim.search rules };

    ghost there = { roster_there };

    ghost back = { roster_back };

    ghost own = { Prim.search rules };

    fn encode(&self, value: RosterEntry) -> u64 {
        match value {
            RosterEntry::Duty(duty) => Duties.encode(duty),
            RosterEntry::Licence(licence) => Licences.encode(licence),
        }
    }

    fn decode(&self, code: u64) -> Option<RosterEntry> {
        match self {
            RosterKind::Duty => Duties.decode(code).map(RosterEntry::Duty),
            RosterKind::Licence => Licences.decode(code).map(RosterEntry::Licence),
        }
    }
}
