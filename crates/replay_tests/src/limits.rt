// The limits: slots, notes, writes, free places, and the length of a script. Each is a test of its
// own, since its name says which limit it shows.
use crate::runs::{expect, over_roster, over_table};
use std::fmt::Write;
use std::test::Fail;

#[test]
fn thirty_two_slots(rt: HostRuntime) -> Result<(), Fail> {
    let mut script = String::from_str(rt.alloc(), "o\n")?;
    let mut expected = String::from_str(rt.alloc(), "o ok 16 0\n")?;
    for stamp in 1..33 {
        write!(script, "b {stamp} A\n")?;
        expected.push_str("b ok 1 A\n")?;
    }
    script.push_str("b 33 B\nk 7 1\nb 33 B\n")?;
    expected.push_str("b no 4\nk ok\nb ok 1 B\n")?;
    expect(
        &rt,
        over_roster(rt.alloc(), script.as_bytes())?,
        expected.as_bytes(),
    );
    Ok(())
}

#[test]
fn sixty_four_notes(rt: HostRuntime) -> Result<(), Fail> {
    let mut script = String::from_str(rt.alloc(), "o\nb 5 A\n")?;
    let mut expected = String::from_str(rt.alloc(), "o ok 128 0\nb ok 1 A\n")?;
    for granule in 0..64 {
        write!(script, "r 5 1 {granule}\n")?;
        expected.push_str("r ok none\n")?;
    }
    script.push_str("r 5 1 64\nr 5 1 0\nq 5\n")?;
    expected.push_str("r no 12\nr ok none\nq ok 1 1 0 64\n")?;
    let mut words = [0u64; 256];
    let answers = over_table(rt.alloc(), &mut words, 128, script.as_bytes())?;
    expect(&rt, answers, expected.as_bytes());
    Ok(())
}

#[test]
fn sixteen_writes(rt: HostRuntime) -> Result<(), Fail> {
    let mut script = String::from_str(rt.alloc(), "o\nb 5 A\n")?;
    let mut expected = String::from_str(rt.alloc(), "o ok 128 0\nb ok 1 A\n")?;
    for granule in 0..16 {
        write!(script, "e 5 1 {granule}\n")?;
        expected.push_str("e ok\n")?;
    }
    script.push_str("w 5 1 16 12884901888\nw 5 1 0 41\nr 5 1 0\n")?;
    expected.push_str("w no 13\nw ok\nr ok 41\n")?;
    let mut words = [0u64; 256];
    let answers = over_table(rt.alloc(), &mut words, 128, script.as_bytes())?;
    expect(&rt, answers, expected.as_bytes());
    Ok(())
}

#[test]
fn one_free_place_and_another_running_writer(rt: HostRuntime) -> Result<(), Fail> {
    let script = b"o\nb 5 A\nb 8 B\nw 5 1 0 1\nw 8 1 0 2\ne 8 1 0\nw 5 1 0 3\nk 5 1\nw 8 1 0 2\n\
        c 8 1\ns\ns\ns\nb 9 C\nw 9 1 0 1\n";
    let expected = b"o ok 2 0\nb ok 1 A\nb ok 1 B\nw ok\nw no 14\ne no 14\nw ok\nk ok\nw ok\n\
        c ok sect\ns ok put 0\ns ok mark\ns ok done 8\nb ok 1 C\nw no 14\n";
    let mut words = [0u64; 4];
    expect(
        &rt,
        over_table(rt.alloc(), &mut words, 2, script)?,
        expected,
    );
    Ok(())
}

#[test]
fn no_line_of_a_long_script_runs(rt: HostRuntime) -> Result<(), Fail> {
    expect(&rt, over_roster(rt.alloc(), &[10; 16385])?, b"? no 17\n");
    let answers = over_roster(rt.alloc(), &[10; 16384])?;
    assert!(rt; answers.len() == 131072);
    expect(&rt, over_roster(rt.alloc(), b"")?, b"");
    Ok(())
}
