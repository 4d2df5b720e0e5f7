//! What a command line orders.

use console_terminal::{Command, Keyword, Mistake, Order, Port, order_of};

static LINES: [(&[u8], Order); 43] = [
    (b"", Order::Nothing),
    (b"   ", Order::Nothing),
    (b"stop 0", Order::Command(Command::Stop(0))),
    (b"stop 09", Order::Command(Command::Stop(9))),
    (b"  stop   97  ", Order::Command(Command::Stop(97))),
    (b"stop 100", Order::Mistake(Mistake::Unfit(Keyword::Stop))),
    (b"stop", Order::Mistake(Mistake::Unfit(Keyword::Stop))),
    (b"stop x", Order::Mistake(Mistake::Unfit(Keyword::Stop))),
    (b"stop 1x", Order::Mistake(Mistake::Unfit(Keyword::Stop))),
    (b"stop x1", Order::Mistake(Mistake::Unfit(Keyword::Stop))),
    (b"stop -1", Order::Mistake(Mistake::Unfit(Keyword::Stop))),
    (b"stop 1 2", Order::Mistake(Mistake::Unfit(Keyword::Stop))),
    (b"spare", Order::Command(Command::Spare)),
    (b"spare 1", Order::Mistake(Mistake::Unfit(Keyword::Spare))),
    (b"speed 0", Order::Command(Command::Speed(0))),
    (b"speed 10000", Order::Command(Command::Speed(10_000))),
    (
        b"speed 0999999999",
        Order::Command(Command::Speed(999_999_999)),
    ),
    (b"speed", Order::Mistake(Mistake::Unfit(Keyword::Speed))),
    (
        b"speed 9999",
        Order::Mistake(Mistake::Unfit(Keyword::Speed)),
    ),
    (
        b"speed 1000000000",
        Order::Mistake(Mistake::Unfit(Keyword::Speed)),
    ),
    (
        b"speed 4294977296",
        Order::Mistake(Mistake::Unfit(Keyword::Speed)),
    ),
    (
        b"speed 20000x",
        Order::Mistake(Mistake::Unfit(Keyword::Speed)),
    ),
    (b"status", Order::Command(Command::Status)),
    (b"STATUS", Order::Command(Command::Status)),
    (b"status 1", Order::Mistake(Mistake::Unfit(Keyword::Status))),
    (b"terminal 0", Order::Command(Command::Terminal(Port::Zero))),
    (b"Terminal 1", Order::Command(Command::Terminal(Port::One))),
    (
        b"terminal 2",
        Order::Mistake(Mistake::Unfit(Keyword::Terminal)),
    ),
    (
        b"terminal 01",
        Order::Mistake(Mistake::Unfit(Keyword::Terminal)),
    ),
    (
        b"terminal",
        Order::Mistake(Mistake::Unfit(Keyword::Terminal)),
    ),
    (
        b"terminal 0 1",
        Order::Mistake(Mistake::Unfit(Keyword::Terminal)),
    ),
    (b"save 0 a.dsk", Order::Command(Command::Save(0))),
    (b"save  3   my disk.dsk", Order::Command(Command::Save(3))),
    (b"save 0", Order::Mistake(Mistake::Unfit(Keyword::Save))),
    (
        b"save 4 a.dsk",
        Order::Mistake(Mistake::Unfit(Keyword::Save)),
    ),
    (b"save a.dsk", Order::Mistake(Mistake::Unfit(Keyword::Save))),
    (b"help", Order::Command(Command::Help)),
    (b"help me", Order::Mistake(Mistake::Unfit(Keyword::Help))),
    (b"qUiT", Order::Command(Command::Quit)),
    (b"quit now", Order::Mistake(Mistake::Unfit(Keyword::Quit))),
    (b"quit\t", Order::Mistake(Mistake::Unknown)),
    (b"sto 1", Order::Mistake(Mistake::Unknown)),
    (b"1", Order::Mistake(Mistake::Unknown)),
];

#[test]
fn each_line_orders_what_its_row_says(rt: HostRuntime) {
    for (line, order) in &LINES {
        assert!(rt; order_of(line) == *order);
    }
}
