// A pilot's licence.
ghost use Rattle.std.specs.Prelude.{◌≡◌, true};
ghost use Rattle.kind.specs.Ranges.{held_range, reason_range};

#[derive(Clone, Copy, PartialEq, Eq, Debug)]
pub struct HeldLicence {
    pub class: u8,
    pub last_day: u16,
    ghost sound: { held_range class last_day ≡ true },
}

impl HeldLicence {
    ghost use Rattle.kind.specs.Licences.{held_with};

    pub fn new(class: u8, last_day: u16) -> Option<HeldLicence>
        ensures { result ≡ held_with class last_day }
    {
        if !(1..=5).contains(&class) {
            return None;
        }
        Some(HeldLicence { class, last_day })
    }
}

#[derive(Clone, Copy, PartialEq, Eq, Debug)]
pub struct Suspension {
    pub reason: u8,
    ghost sound: { reason_range reason ≡ true },
}

impl Suspension {
    ghost use Rattle.kind.specs.Licences.{suspension_with};

    pub fn new(reason: u8) -> Option<Suspension>
        ensures { result ≡ suspension_with reason }
    {
        if !(1..=9).contains(&reason) {
            return None;
        }
        Some(Suspension { reason })
    }
}

#[derive(Clone, Copy, PartialEq, Eq, Debug)]
pub enum Licence {
    Held(HeldLicence),
    Suspended(Suspension),
    Expired,
}
