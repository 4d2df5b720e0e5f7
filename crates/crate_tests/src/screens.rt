//! A terminal as the pair and a user at it see it.
use i8080_words::{Fault, R};
use terminals::Terminal;

#[test]
fn each_byte_is_accepted_once_and_in_order(rt: HostRuntime) -> R<()> {
    let mut terminal = Terminal::new(rt.alloc());
    for (number, accepts) in [(0, false), (2, false), (1, true), (1, false), (2, true)] {
        assert!(rt; terminal.arrive(number, 0x48)? == accepts, "byte {number}");
    }
    assert!(rt; terminal.accepted() == [0x48, 0x48].as_slice());
    Ok(())
}

#[test]
fn keys_are_kept_by_index(rt: HostRuntime) -> R<()> {
    let mut terminal = Terminal::new(rt.alloc());
    assert!(rt; terminal.typed(0x41)? == 0);
    assert!(rt; terminal.key(0) == Ok(0x41) && terminal.key(1) == Err(Fault::Unknown));
    terminal.tell(1);
    terminal.tell(0);
    assert!(rt; terminal.told() == 1);
    Ok(())
}
