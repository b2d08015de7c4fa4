// A pilot's duty: a berth to bring ships to, in a watch.
ghost use Rattle.std.specs.Prelude.{◌≡◌, true};
ghost use Rattle.kind.specs.Ranges.{duty_range};

#[derive(Clone, Copy, PartialEq, Eq, Debug)]
pub struct Duty {
    pub pilot: u16,
    pub berth: u8,
    pub watch: u8,
    ghost sound: { duty_range pilot berth watch ≡ true },
}

impl Duty {
    ghost use Rattle.kind.specs.Duties.{duty_with};

    pub fn new(pilot: u16, berth: u8, watch: u8) -> Option<Duty>
        ensures { result ≡ duty_with pilot berth watch }
    {
        if !(1..=999).contains(&pilot) || watch > 3 {
            return None;
        }
        Some(Duty {
            pilot,
            berth,
            watch,
        })
    }
}
