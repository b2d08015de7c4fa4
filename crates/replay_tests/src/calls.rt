// The calls and their refusals, as scripts. Alike but for their scripts, and each a test of its
// own, since its name says which rule it shows.
use crate::runs::{expect, over_roster, over_table};
use std::test::Fail;

#[test]
fn a_booking_from_begin_to_done(rt: HostRuntime) -> Result<(), Fail> {
    let script = b"o\nb 5 P3\nb 8 Q1\nr 8 1 2\nw 5 1 2 41\nc 8 1\nc 5 1\ns\ns\ns\ns\n\
        r 8 1 2\nr 8 2 2\nq 5";
    let expected = b"o ok 16 0\nb ok 1 P3\nb ok 1 Q1\nr ok none\nw ok\nc ok wait\nc ok sect\n\
        s ok put 2\ns ok mark\ns ok again 8 2\ns ok done 5\nr no 8 2\nr ok 41\nq ok 5 1 0 0\n";
    expect(&rt, over_roster(rt.alloc(), script)?, expected);
    Ok(())
}

#[test]
fn nothing_before_open_and_open_once(rt: HostRuntime) -> Result<(), Fail> {
    let script = b"b 5 A\nr 5 1 0\nw 5 1 0 1\ne 5 1 0\nc 5 1\nk 5 1\ns\nq 5\nn 1\no\no\n";
    let expected = b"b no 1\nr no 1\nw no 1\ne no 1\nc no 1\nk no 1\ns no 1\nq no 1\nn no 1\n\
        o ok 16 0\no no 2\n";
    expect(&rt, over_roster(rt.alloc(), script)?, expected);
    Ok(())
}

#[test]
fn stamps_rise_and_are_in_range(rt: HostRuntime) -> Result<(), Fail> {
    let script = b"o\nb 0 A\nb 8 A\nb 8 B\nb 9 C\nb 4611686018427387904 D\n\
        b 4611686018427387903 E\nb 4611686018427387903 F\n";
    let expected = b"o ok 16 0\nb no 3 0\nb ok 1 A\nb no 3 8\nb ok 1 C\nb no 3 9\nb ok 1 E\n\
        b no 3 4611686018427387903\n";
    expect(&rt, over_roster(rt.alloc(), script)?, expected);
    Ok(())
}

// Granule, transaction, attempt, phase and section are tried in this order.
#[test]
fn refusals_in_their_order(rt: HostRuntime) -> Result<(), Fail> {
    let script = b"o\nb 5 A\nb 8 B\nw 5 1 0 1\nc 5 1\nr 7 9 16\nr 7 9 0\nr 5 9 0\nr 5 1 0\n\
        r 8 1 0\nw 8 1 0 0\ne 8 1 0\nk 5 1\nc 5 1\nw 8 1 1 0\n";
    let expected = b"o ok 16 0\nb ok 1 A\nb ok 1 B\nw ok\nc ok sect\nr no 5\nr no 7\nr no 8 1\n\
        r no 9 3\nr no 10 5\nw no 10 5\ne no 10 5\nk no 9 3\nc no 9 3\nw no 15 0\n";
    expect(&rt, over_roster(rt.alloc(), script)?, expected);
    Ok(())
}

#[test]
fn the_oldest_rolls_back_and_the_next_enters_its_section(rt: HostRuntime) -> Result<(), Fail> {
    let script = b"o\nb 5 A\nb 8 B\nc 8 1\nq 8\nk 5 1\nq 8\nq 5\ns\ns\ns\n";
    let expected = b"o ok 16 0\nb ok 1 A\nb ok 1 B\nc ok wait\nq ok 2 1 1 0\nk ok\nq ok 3 1 0 0\n\
        q no 7\ns ok mark\ns ok done 8\ns ok idle\n";
    expect(&rt, over_roster(rt.alloc(), script)?, expected);
    Ok(())
}

#[test]
fn a_read_between_mark_and_check_does_not_restart(rt: HostRuntime) -> Result<(), Fail> {
    let script = b"o\nb 5 A\nb 8 B\nb 9 C\nr 9 1 3\nw 5 1 3 7\nc 5 1\ns\ns\nr 8 1 3\ns\ns\ns\n\
        r 8 1 3\nq 9\n";
    let expected = b"o ok 16 0\nb ok 1 A\nb ok 1 B\nb ok 1 C\nr ok none\nw ok\nc ok sect\n\
        s ok put 3\ns ok mark\nr ok 7\ns ok pass 8\ns ok again 9 3\ns ok done 5\nr ok 7\n\
        q ok 1 2 1 0\n";
    expect(&rt, over_roster(rt.alloc(), script)?, expected);
    Ok(())
}

// The junior read granules 4 and 2; the first of them in the order of writing is named.
#[test]
fn the_first_granule_in_order_of_writing(rt: HostRuntime) -> Result<(), Fail> {
    let script = b"o\nb 5 A\nb 8 B\nr 8 1 4\nr 8 1 2\nw 5 1 1 1\nw 5 1 2 2\nw 5 1 4 4\nw 5 1 1 9\n\
        c 5 1\ns\ns\ns\ns\ns\n";
    let expected = b"o ok 16 0\nb ok 1 A\nb ok 1 B\nr ok none\nr ok none\nw ok\nw ok\nw ok\nw ok\n\
        c ok sect\ns ok put 1\ns ok put 2\ns ok put 4\ns ok mark\ns ok again 8 2\n";
    expect(&rt, over_roster(rt.alloc(), script)?, expected);
    Ok(())
}

#[test]
fn both_radios_down(rt: HostRuntime) -> Result<(), Fail> {
    let script = b"o\nb 9 A\nn 1\nr 9 1 9\nn 3\nr 9 1 9\nw 9 1 9 12884901888\nr 9 1 9\nc 9 1\ns\n\
        n 4\ns\n";
    let expected = b"o ok 16 0\nb ok 1 A\nn ok\nr ok none\nn ok\nr no 11 9 22 3 1\nw ok\n\
        r ok 12884901888\nc ok sect\ns no 11 9 22 3 1\nn ok\ns ok put 9\n";
    expect(&rt, over_roster(rt.alloc(), script)?, expected);
    Ok(())
}

// A duty has no pilot 0, so code 0 of granule 0 is foreign; its read is refused and noted.
#[test]
fn a_foreign_code_keeps_the_note(rt: HostRuntime) -> Result<(), Fail> {
    let mut words = [3, 0];
    let answers = over_table(rt.alloc(), &mut words, 1, b"o\nb 5 A\nr 5 1 0\nq 5")?;
    expect(
        &rt,
        answers,
        b"o ok 1 3\nb ok 1 A\nr no 15 0\nq ok 1 1 0 1\n",
    );
    Ok(())
}

// Stamp 0 in a pair that is not zero: the table is refused, and has no granules.
#[test]
fn a_refused_table_has_no_granules(rt: HostRuntime) -> Result<(), Fail> {
    let mut words = [0, 41];
    let answers = over_table(rt.alloc(), &mut words, 1, b"o\nb 5 A\nr 5 1 0\n")?;
    expect(&rt, answers, b"o ok 0 0\nb ok 1 A\nr no 5\n");
    Ok(())
}
