//! A few lines that are calls, and many that are not.
use crate::script::{Queues, Script};
use machine::call::{Call, Ticket};
use std::test::Fail;

#[test]
fn lines_are_calls(rt: HostRuntime) -> Result<(), Fail> {
    let input = b"a\nb\n\nadvance 007\n\nenter 0\nleave 1 2 4294967295\nfinish";
    let script = Script::read(rt.alloc(), input)?;
    assert!(rt; script.table == b"a\nb\n".as_slice());
    let grant = Ticket {
        task: 1,
        section: 2,
        serial: 4294967295,
    };
    let calls = [
        Call::Advance(7),
        Call::Enter(0),
        Call::Leave(grant),
        Call::Finish,
    ];
    assert_eq!(rt; script.calls(rt.alloc())?.as_slice(), &calls[0..4]);
    Ok(())
}

#[test]
fn other_lines_are_none(rt: HostRuntime) -> Result<(), Fail> {
    let input =
        b"\nadvance\nadvance \nadvance +1\nadvance 1 \nadvance 18446744073709551616\nleave 1 2\nleave 1 2 4294967296\nFinish\n\xff\nqueue list";
    let script = Script::read(rt.alloc(), input)?;
    assert!(rt; script.table.is_empty());
    assert_eq!(rt; script.lines.len(), 10);
    assert_eq!(rt; script.calls(rt.alloc())?.len(), 0);
    Ok(())
}

#[test]
fn the_first_line_chooses(rt: HostRuntime) -> Result<(), Fail> {
    let script = Script::read(rt.alloc(), b"\nqueue list\nqueue heap")?;
    assert!(rt; matches!(script.queues, Queues::Lists));
    assert_eq!(rt; script.lines.len(), 1);
    Ok(())
}
