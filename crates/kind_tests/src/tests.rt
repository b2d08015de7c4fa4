// Each test goes through a table of parts or codes.
use kind::*;

fn duty_code(pilot: u16, berth: u8, watch: u8) -> Option<u64> {
    Duty::new(pilot, berth, watch).map(|duty| Duties.encode(duty))
}

#[test]
fn duties(rt: HostRuntime) {
    assert_eq!(rt; duty_code(1, 0, 0), Some(1));
    assert_eq!(rt; duty_code(999, 255, 3), Some(999 + 1024 * (255 + 256 * 3)));
    assert_eq!(rt; duty_code(42, 7, 2), Some(531_498));
    assert_eq!(rt; duty_code(0, 0, 0), None);
    assert_eq!(rt; duty_code(1000, 0, 0), None);
    assert_eq!(rt; duty_code(1, 0, 4), None);
    for code in [1, 999, 1025, 531_498, 1_048_551] {
        assert!(rt; Duties.decode(code).is_some());
        assert_eq!(rt; recode(&Duties, code), code);
    }
    for code in [
        0,
        1000,
        1023,
        1024,
        1_048_552,
        1_048_576,
        1_048_577,
        u64::MAX,
    ] {
        assert_eq!(rt; Duties.decode(code), None);
    }
}

fn held_code(class: u8, last_day: u16) -> Option<u64> {
    HeldLicence::new(class, last_day).map(|held| Licences.encode(Licence::Held(held)))
}

fn suspended_code(reason: u8) -> Option<u64> {
    Suspension::new(reason).map(|suspension| Licences.encode(Licence::Suspended(suspension)))
}

#[test]
fn licences(rt: HostRuntime) {
    assert_eq!(rt; held_code(1, 0), Some(0x1_0001_0000));
    assert_eq!(rt; held_code(5, 65535), Some(0x1_0005_FFFF));
    assert_eq!(rt; held_code(0, 0), None);
    assert_eq!(rt; held_code(6, 0), None);
    assert_eq!(rt; suspended_code(1), Some(0x2_0000_0001));
    assert_eq!(rt; suspended_code(9), Some(0x2_0000_0009));
    assert_eq!(rt; suspended_code(0), None);
    assert_eq!(rt; suspended_code(10), None);
    assert_eq!(rt; Licences.encode(Licence::Expired), 0x3_0000_0000);
}

#[test]
fn licence_codes(rt: HostRuntime) {
    for code in [
        0x1_0001_0000,
        0x1_0005_FFFF,
        0x2_0000_0001,
        0x2_0000_0009,
        0x3_0000_0000,
    ] {
        assert!(rt; Licences.decode(code).is_some());
        assert_eq!(rt; recode(&Licences, code), code);
    }
    for code in [
        0,
        0x1_0000_FFFF,
        0x1_0006_0000,
        0x2_0000_0000,
        0x2_0000_000A,
        u64::MAX,
    ] {
        assert_eq!(rt; Licences.decode(code), None);
    }
    for code in [
        0x2_0001_0001,
        0x3_0000_0001,
        0x4_0000_0000,
        0x1_0000_0000_0000,
    ] {
        assert_eq!(rt; Licences.decode(code), None);
    }
}

// A granule's kind refuses the codes of the other kind.
#[test]
fn roster(rt: HostRuntime) {
    for granule in [0, 7] {
        let kind = RosterKind::of(granule);
        assert!(rt; kind.decode(531_498).is_some());
        assert_eq!(rt; kind.decode(0x3_0000_0000), None);
    }
    for granule in [8, 15] {
        let kind = RosterKind::of(granule);
        assert_eq!(rt; kind.decode(531_498), None);
        assert!(rt; kind.decode(0x3_0000_0000).is_some());
    }
    assert_eq!(rt; Codes.decode(u64::MAX), Some(u64::MAX));
    assert_eq!(rt; again(&Codes, 0), Some(0));
}
