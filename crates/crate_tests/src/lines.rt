//! Events, spelled as lines.
use event_callbacks::OpId;
use pair_events::Event;
use shell_language::{ShellLine, Spelled, read_line};
use std::test::Fail;

// Events, spelled as lines; each line says its event.
#[rattlefmt::skip]
static EVENTS: [(&str, Event); 24] = [
    ("step 0 10", Event::Step { node: 0, turns: 10 }),
    ("type 1 4A", Event::TypeByte { port: 1, byte: 0x4a }),
    ("key 0 1 2", Event::TakeKey { node: 0, port: 1, index: 2 }),
    ("send 0 7", Event::Send { node: 0, index: 7 }),
    ("log 3 1", Event::DeliverLog { message: 3, node: 1 }),
    ("ack 1", Event::Acknowledge { node: 1 }),
    ("acked 4 0", Event::DeliverAcknowledgement { message: 4, node: 0 }),
    ("replay 1 5", Event::Replay { node: 1, turns: 5 }),
    ("release 0 byte 1 6", Event::Release { node: 0, id: OpId::Byte(1, 6) }),
    ("release 0 write 7", Event::Release { node: 0, id: OpId::Write(7) }),
    ("arrive 2", Event::Arrive { message: 2 }),
    ("sent 0 1 6", Event::TellSent { node: 0, port: 1, number: 6 }),
    ("told 1 0", Event::Told { node: 1, port: 0 }),
    ("put 5", Event::Put { message: 5 }),
    ("done 6 0", Event::PutReply { message: 6, node: 0 }),
    ("get 0 31", Event::Get { node: 0, sector: 31 }),
    ("under 7 0", Event::GetReply { message: 7, node: 0 }),
    ("suspect 1", Event::Suspect { node: 1 }),
    ("drain 1 10", Event::Drain { node: 1, turns: 10 }),
    ("pair 1 2", Event::BeginPair { node: 1, host: 2 }),
    ("freshen 1 8", Event::Freshen { node: 1, pages: 8 }),
    ("sendpart 1 333", Event::SendPart { node: 1, index: 333 }),
    ("part 9 2", Event::PartComes { message: 9, node: 2 }),
    ("stop 0", Event::Stop { node: 0 }),
];

#[test]
fn events_are_spelled_as_lines(rt: HostRuntime) -> Result<(), Fail> {
    for (line, event) in &EVENTS {
        let text = format!(in rt.alloc(); "{}", Spelled(*event))?;
        assert!(rt; text.as_str() == *line);
        match read_line(line.as_bytes()) {
            Ok(ShellLine::Event(said)) => {
                let again = format!(in rt.alloc(); "{}", Spelled(said))?;
                assert!(rt; again.as_str() == *line);
            }
            _ => assert!(rt; false, "{line}"),
        }
    }
    Ok(())
}
