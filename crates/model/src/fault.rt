// Faults: how a store refuses.
ghost use Rattle.std.specs.Prelude.{◌≡◌};
ghost use Rattle.model.specs.Numbers.{cause_number};

// Why a store refuses, with the number of each cause.
#[derive(Clone, Copy, PartialEq, Eq, Debug)]
pub enum Cause {
    // no such granule, or no such version of it
    Missing = 21,
    OutOfReach = 22,
    // the stamp is out of range, or not above the granule's last
    BadStamp = 23,
    NoFreePlace = 24,
}

impl Cause {
    pub fn number(self) -> u8
        ensures { result ≡ cause_number self }
    {
        self as u8
    }
}

// A cause, the layer where it arose, and the granule as that layer counts it.
#[derive(Clone, Copy, PartialEq, Eq, Debug)]
pub struct Fault {
    pub cause: Cause,
    pub layer: u8,
    pub granule: usize,
}

impl Fault {
    pub fn new(cause: Cause, layer: u8, granule: usize) -> Fault
        ensures { result ≡ record { cause = cause; layer = layer; granule = granule } }
    {
        Fault {
            cause,
            layer,
            granule,
        }
    }
}
