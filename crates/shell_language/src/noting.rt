//! How a book notes what has happened.
ghost use Rattle.std.specs.Prelude.{◌≡◌, ◌<◌, vec_capacity, vec_len};
ghost use Rattle.sequence_diagram.specs.Messages.{delivered_by};
ghost use Rattle.shell_language.specs.Notes.{progress};
ghost use Rattle.shell_language.specs.Noting.{arrived, brought, given, heard_written, letters_after, noted, noted_accepted, noted_held, noted_part, noted_sent, noted_steps, noted_taken, noted_told, noted_typed, posted, replied, taken_by, ungiven};

use crate::book::{Book, Brings, Letter, PortNotes, forget_write};
use event_callbacks::OpId;
use guest_lockstep::StopReason;
use i8080_words::{Fault, R};
use pair_events::{Event, Reply};
use sequence_diagram::delivered;

impl Book {
    /// Notes an event, its answer, and what the message brings that it has sent, if any.
    pub fn note(&mut self, event: Event, answer: R<Reply>, sent: Option<Brings>)
        requires letters { vec_len self.old.letters < vec_capacity self.old.letters }
        requires undone { vec_len self.old.undone < vec_capacity self.old.undone }
        ensures letters { self.new.letters.items ≡ letters_after event answer sent self.old.letters.items }
        ensures progress { progress self.new ≡ noted event answer (posted sent self.old.letters.items) (progress self.old) }
    {
        match answer {
            Ok(reply) => {
                self.post(sent);
                self.note_reply(event, reply);
                self.note_arrival(event);
            }
            Err(Fault::NotDue) => self.note_not_due(event),
            Err(_) => {}
        }
    }

    // A message was sent, if there is one.
    fn post(&mut self, sent: Option<Brings>)
        requires room { vec_len self.old.letters < vec_capacity self.old.letters }
        ensures letters { self.new.letters.items ≡ posted sent self.old.letters.items }
        ensures same { self.new ≡ record self.old { letters = self.new.letters } }
    {
        if let Some(brings) = sent {
            self.letters.push_reserved(Letter {
                brings,
                has_arrived: false,
            });
        }
    }

    // Notes how far the node that runs the guest has come.
    fn note_reply(&mut self, event: Event, reply: Reply)
        requires undone { vec_len self.old.undone < vec_capacity self.old.undone }
        ensures progress { progress self.new ≡ replied event reply self.old.letters.items (progress self.old) }
        ensures letters { self.new.letters ≡ self.old.letters }
    {
        match event {
            Event::TypeByte { port, .. } => self.note_typed(port, reply),
            Event::Step { .. } => self.note_steps(reply),
            Event::Send { index, .. } => self.note_sent(index, reply),
            Event::SendPart { index, .. } => self.note_part(index, reply),
            Event::DeliverAcknowledgement { .. } => self.note_held(reply),
            Event::Told { port, .. } => self.note_told(port, reply),
            Event::Arrive { message } => self.note_accepted(message, reply),
            Event::Fetched { .. } => {}
            _ => self.note_taken(event, reply),
        }
    }

    fn note_typed(&mut self, port: u8, reply: Reply)
        ensures progress { progress self.new ≡ noted_typed port reply (progress self.old) }
        ensures letters { self.new.letters ≡ self.old.letters }
    {
        if let Reply::Typed { index } = reply {
            let notes = self.port(port);
            let typed = index.saturating_add(1);
            self.put(port, PortNotes { typed, ..notes });
        }
    }

    fn note_steps(&mut self, reply: Reply)
        requires undone { vec_len self.old.undone < vec_capacity self.old.undone }
        ensures progress { progress self.new ≡ noted_steps reply (progress self.old) }
        ensures letters { self.new.letters ≡ self.old.letters }
    {
        if let Reply::Ran { steps, why, .. } = reply {
            self.has_run = self.has_run || steps > 0;
            if let StopReason::Operation(id) = why {
                self.note_given(id);
            }
        }
    }

    // The guest gave an operation, and a primary has logged its mark.
    fn note_given(&mut self, id: OpId)
        requires undone { vec_len self.old.undone < vec_capacity self.old.undone }
        ensures progress { progress self.new ≡ given id (progress self.old) }
        ensures letters { self.new.letters ≡ self.old.letters }
    {
        self.logged = self.logged.saturating_add(1);
        match id {
            OpId::Byte(port, number) => {
                let notes = self.port(port);
                self.put(
                    port,
                    PortNotes {
                        sent: number,
                        ..notes
                    },
                );
            }
            OpId::Write(number) => {
                self.writes = number;
                self.undone.push_reserved(number);
            }
        }
    }

    fn note_sent(&mut self, index: u64, reply: Reply)
        ensures progress { progress self.new ≡ noted_sent index reply (progress self.old) }
        ensures letters { self.new.letters ≡ self.old.letters }
    {
        if let Reply::Message { .. } = reply {
            self.posted = self.posted.max(index.saturating_add(1));
        }
    }

    fn note_part(&mut self, index: u64, reply: Reply)
        ensures progress { progress self.new ≡ noted_part index reply (progress self.old) }
        ensures letters { self.new.letters ≡ self.old.letters }
    {
        if let Reply::Message { .. } = reply {
            self.parts = self.parts.max(index.saturating_add(1));
        }
    }

    fn note_held(&mut self, reply: Reply)
        ensures progress { progress self.new ≡ noted_held reply (progress self.old) }
        ensures letters { self.new.letters ≡ self.old.letters }
    {
        if let Reply::Held { held } = reply {
            self.held = held;
        }
    }

    fn note_told(&mut self, port: u8, reply: Reply)
        ensures progress { progress self.new ≡ noted_told port reply (progress self.old) }
        ensures letters { self.new.letters ≡ self.old.letters }
    {
        if let Reply::Told { keys } = reply {
            let notes = self.port(port);
            self.put(
                port,
                PortNotes {
                    covered: keys,
                    ..notes
                },
            );
        }
    }

    // The terminal of a port has accepted the byte of a message.
    fn note_accepted(&mut self, message: u64, reply: Reply)
        ensures progress { progress self.new
            ≡ noted_accepted (brought self.old.letters.items message) reply (progress self.old) }
        ensures letters { self.new.letters ≡ self.old.letters }
    {
        if let Reply::Accepted = reply {
            if let Some(Brings::Byte { port }) = self.brought(message) {
                let notes = self.port(port);
                let accepted = notes.accepted.saturating_add(1);
                self.put(port, PortNotes { accepted, ..notes });
            }
        }
    }

    // The guest took an input, and a primary has logged it; or a pair has begun, whose log is empty, and of whose image
    // nothing was sent.
    fn note_taken(&mut self, event: Event, reply: Reply)
        ensures progress { progress self.new ≡ noted_taken event reply self.old.letters.items (progress self.old) }
        ensures letters { self.new.letters ≡ self.old.letters }
    {
        match reply {
            Reply::Taken => {
                self.logged = self.logged.saturating_add(1);
                self.take(event);
            }
            Reply::Generation { .. } => {
                self.logged = 0;
                self.posted = 0;
                self.held = 0;
                self.parts = 0;
            }
            _ => {}
        }
    }

    fn take(&mut self, event: Event)
        ensures progress { progress self.new ≡ taken_by event self.old.letters.items (progress self.old) }
        ensures letters { self.new.letters ≡ self.old.letters }
    {
        match event {
            Event::TakeKey { port, index, .. } => {
                let notes = self.port(port);
                let taken = index.saturating_add(1);
                self.put(port, PortNotes { taken, ..notes });
            }
            Event::TellSent { port, number, .. } => {
                let notes = self.port(port);
                self.put(
                    port,
                    PortNotes {
                        heard: number,
                        ..notes
                    },
                );
            }
            Event::PutReply { message, .. } => self.hear_written(message),
            _ => {}
        }
    }

    // The guest hears of the write that a message says is done.
    fn hear_written(&mut self, message: u64)
        ensures progress { progress self.new ≡ heard_written (brought self.old.letters.items message) (progress self.old) }
        ensures letters { self.new.letters ≡ self.old.letters }
    {
        if let Some(Brings::Written { number }) = self.brought(message) {
            forget_write(&mut self.undone, number);
        }
    }

    // A node that has won has not given this operation, or not yet.
    fn note_not_due(&mut self, event: Event)
        ensures progress { progress self.new ≡ ungiven event (progress self.old) }
        ensures letters { self.new.letters ≡ self.old.letters }
    {
        match event {
            Event::Release {
                id: OpId::Byte(port, number),
                ..
            } => {
                let notes = self.port(port);
                let sent = notes.sent.min(number.saturating_sub(1)).max(notes.heard);
                self.put(port, PortNotes { sent, ..notes });
            }
            Event::Release {
                id: OpId::Write(number),
                ..
            } => forget_write(&mut self.undone, number),
            _ => {}
        }
    }

    // Notes that a message has reached someone.
    fn note_arrival(&mut self, event: Event)
        ensures letters { self.new.letters.items ≡ arrived (delivered_by event) self.old.letters.items }
        ensures same { self.new ≡ record self.old { letters = self.new.letters } }
    {
        let Some(message) = delivered(event) else {
            return;
        };
        if let Some(letter) = self.letters.get_mut(message as usize) {
            letter.has_arrived = true;
        }
    }
}
