//! What carries out the commands of a console whose hosts are processes.
ghost use Rattle.std.specs.Prelude.{◌≡◌, ◌≢◌, [], IfOk, None, string_bytes};
ghost use Rattle.command_console.specs.Frames.{IsAnswer, do_word, picture_word, unaided_text, wish_of};
ghost use Rattle.command_console.specs.Fates.{fate_of};

use crate::frame::{answer, wish};
use crate::looking::{page_of, text_of};
use crate::mirror::Shelf;
use crate::seats::{Seat, Seats};
use console_terminal::{Command, HELP, Interpreter, path_in, rest_in};
use host_frames::Report;
use outside_switch::LinkState;
use pair_events::Role;
use std::alloc::{AllocError, Global};
use std::sync::Arc;

/// Says how the hosts are, has packets get lost, bounds the guest's speed, hands out images of the disk, and hands on what only a command can do that has started
/// this program: to end, stop, continue and start processes, and to draw.
#[derive(Drop)]
pub(crate) struct Supervisor {
    alloc: Global,
    seats: Arc<Seats>,
    shelf: Arc<Shelf>,
    // What the command looks for that started this program; empty if there is none.
    mark: String,
    // How many questions it has asked of a machine.
    questions: u32,
}

impl Supervisor {
    pub(crate) fn new(
        alloc: Global,
        seats: Arc<Seats>,
        shelf: Arc<Shelf>,
        mark: String,
    ) -> Supervisor {
        Supervisor {
            alloc,
            seats,
            shelf,
            mark,
            questions: 0,
        }
    }

    // How the hosts are, a line for each that was started and has not ended, what becomes of packets between them, and how fast the guest
    // runs if that is bounded.
    fn status(&self) -> Result<String, AllocError> {
        let mut text = String::new(self.alloc);
        for place in 0..=u8::MAX {
            let Some(seat) = self.seats.seat(place) else {
                break;
            };
            self.push_seat(&mut text, &seat)?;
        }
        text.push_str(self.link()?.as_str())?;
        if self.seats.speed() > 0 {
            text.push_str("\r\n")?;
            text.push_str(self.speed()?.as_str())?;
        }
        Ok(text)
    }

    // Adds the line of a host, unless it has said nothing yet or has ended.
    fn push_seat(&self, text: &mut String, seat: &Seat) -> Result<(), AllocError> {
        if seat.is_cut {
            return self.push_cut(text, seat);
        }
        let Some(report) = seat.report else {
            return Ok(());
        };
        let place = seat.place;
        let line = match report.role {
            None => format!(in self.alloc; "host {place}: a spare\r\n")?,
            Some(role) => self.line_of(place, role, &report)?,
        };
        text.push_str(line.as_str())
    }

    // The line of a host whose node has a role.
    fn line_of(&self, place: u8, role: Role, report: &Report) -> Result<String, AllocError> {
        let (name, generation, count) = (role_name(role), report.generation, report.count);
        match role {
            Role::Backup => {
                let lag = report.lag;
                format!(in self.alloc;
                    "host {place}: {name} of generation {generation}, {count} steps, {lag} behind\r\n"
                )
            }
            _ => {
                format!(in self.alloc;
                    "host {place}: {name} of generation {generation}, {count} steps\r\n"
                )
            }
        }
    }

    // What a command looks at in the machine of the host that serves, as it is now.
    fn look(&mut self, command: Command) -> Result<String, AllocError> {
        self.questions = self.questions.wrapping_add(1).max(1);
        match self.seats.inspect(self.questions, page_of(command)) {
            Some(sight) => text_of(self.alloc, command, &sight),
            None => format!(in self.alloc; "no host serves just now"),
        }
    }

    // How fast the guest runs.
    fn speed(&self) -> Result<String, AllocError> {
        match self.seats.speed() {
            0 => format!(in self.alloc; "the machine runs as fast as it can"),
            bound => format!(in self.alloc; "the machine makes at most {bound} steps a second"),
        }
    }

    // The guest makes at most so many steps a second from now on.
    fn set_speed(&self, bound: u32) -> Result<String, AllocError> {
        self.seats.set_speed(u64::from(bound));
        self.speed()
    }

    // Adds the line of a host that is cut off, if frames of it were refused.
    fn push_cut(&self, text: &mut String, seat: &Seat) -> Result<(), AllocError> {
        let (place, refused) = (seat.place, seat.refused);
        if refused == 0 {
            return Ok(());
        }
        let line = format!(in self.alloc; "host {place}: cut off, frames refused: {refused}\r\n")?;
        text.push_str(line.as_str())
    }

    // What becomes of packets between hosts.
    fn link(&self) -> Result<String, AllocError> {
        match self.seats.fate() {
            LinkState::Passes => format!(in self.alloc; "the link loses 0 of 100 packets"),
            LinkState::Loses(percent) => {
                format!(in self.alloc; "the link loses {percent} of 100 packets")
            }
            LinkState::Parts => {
                format!(in self.alloc;
                    "the link loses every packet, and the hosts do not see each other"
                )
            }
        }
    }

    // From now on this becomes of packets. While a host is alone there are none, which is said.
    fn set_fate(&self, command: Command) -> Option<String> {
        self.seats.set_fate(fate_of(command)?);
        let mut text = self.link().ok()?;
        if self.is_alone() {
            text.push_str("; no host is a backup, so there is no link yet")
                .ok()?;
        }
        Some(text)
    }

    // Whether a host says that it is alone, and none is given a copy.
    fn is_alone(&self) -> bool {
        let mut is_alone = false;
        for place in 0..=u8::MAX {
            let Some(seat) = self.seats.seat(place) else {
                break;
            };
            match role_of(&seat) {
                Some(Role::Alone) => is_alone = true,
                Some(Role::Joining) => return false,
                _ => {}
            }
        }
        is_alone
    }

    // What is answered if this program is run by no command that starts processes and writes files.
    fn unaided(&self) -> Result<String, AllocError>
        ensures { IfOk result (λ text. string_bytes text ≡ unaided_text) }
    {
        format!(in self.alloc;
            "that needs the command `./pair`, which starts processes and writes files: this program does neither"
        )
    }

    // The disk of a drive, for the command that writes files.
    #[tactic(auto, using(crate::proofs::Answering::is_answer))]
    fn save(&self, drive: u8, path: &[u8]) -> Result<String, AllocError>
        ensures unaided { string_bytes self.now.mark ≡ [] → IfOk result (λ text. string_bytes text ≡ unaided_text) }
        ensures aided { string_bytes self.now.mark ≢ [] → IfOk result
            (λ text. IsAnswer (string_bytes self.now.mark) drive path.now (string_bytes text)) }
    {
        if self.mark.is_empty() {
            return self.unaided();
        }
        let image = self.shelf.image(self.alloc, drive);
        answer(self.alloc, self.mark.as_str(), drive, &image, path)
    }

    // A wish for a picture of what has become of the hosts, for the command that draws it.
    fn picture(&self, path: &[u8]) -> Result<String, AllocError>
        ensures unaided { string_bytes self.now.mark ≡ [] → IfOk result (λ text. string_bytes text ≡ unaided_text) }
        ensures aided { string_bytes self.now.mark ≢ [] → IfOk result
            (λ text. string_bytes text ≡ wish_of (string_bytes self.now.mark) picture_word path.now) }
    {
        if self.mark.is_empty() {
            return self.unaided();
        }
        wish(self.alloc, self.mark.as_str(), "picture", path)
    }

    // A wish for what the lines of a file say, for the command that reads it.
    fn do_file(&self, path: &[u8]) -> Result<String, AllocError>
        ensures unaided { string_bytes self.now.mark ≡ [] → IfOk result (λ text. string_bytes text ≡ unaided_text) }
        ensures aided { string_bytes self.now.mark ≢ [] → IfOk result
            (λ text. string_bytes text ≡ wish_of (string_bytes self.now.mark) do_word path.now) }
    {
        if self.mark.is_empty() {
            return self.unaided();
        }
        wish(self.alloc, self.mark.as_str(), "do", path)
    }

    // A wish for what is done with processes, for the command that has started them: a word, and a host unless it is for none.
    fn hand_on(&self, word: &str, host: Option<u8>) -> Result<String, AllocError> {
        let mark = self.mark.as_str();
        match host {
            _ if mark.is_empty() => self.unaided(),
            Some(host) => format!(in self.alloc; "{mark}{mark}{word} {host}{mark}"),
            None => format!(in self.alloc; "{mark}{mark}{word}{mark}"),
        }
    }

    // How the hosts are, for the command that knows their processes.
    fn hand_on_status(&self) -> Result<String, AllocError> {
        let status = self.status()?;
        let (mark, text) = (self.mark.as_str(), status.as_str());
        if mark.is_empty() {
            return Ok(status);
        }
        format!(in self.alloc; "{mark}{mark}status {text}{mark}")
    }
}

impl Interpreter for Supervisor {
    // It keeps no list of what it was given.
    ghost given = { λ _. None };

    fn carry_out(&mut self, command: Command, line: &[u8]) -> Option<String> {
        match command {
            Command::Stop(host) => self.hand_on("stop", Some(host)).ok(),
            Command::Freeze(host) => self.hand_on("freeze", Some(host)).ok(),
            Command::Thaw(host) => self.hand_on("thaw", Some(host)).ok(),
            Command::Spare => self.hand_on("spare", None).ok(),
            Command::Status => self.hand_on_status().ok(),
            Command::Registers | Command::Memory { .. } | Command::Listing { .. } => {
                self.look(command).ok()
            }
            Command::Save(drive) => self.save(drive, path_in(line)).ok(),
            Command::Picture => self.picture(rest_in(line)).ok(),
            Command::Do => self.do_file(rest_in(line)).ok(),
            Command::Help => String::from_str(self.alloc, HELP).ok(),
            Command::Speed(bound) => self.set_speed(bound).ok(),
            Command::Terminal(_) | Command::Quit => None,
            Command::Cut | Command::Mend | Command::Drop(_) | Command::Part => {
                self.set_fate(command)
            }
        }
    }
}

// What becomes of packets after a command about it.
fn fate_of(command: Command) -> Option<LinkState>
    ensures { result ≡ fate_of command }
{
    match command {
        Command::Cut => Some(LinkState::Loses(100)),
        Command::Mend => Some(LinkState::Passes),
        Command::Drop(percent) => Some(LinkState::Loses(percent)),
        Command::Part => Some(LinkState::Parts),
        _ => None,
    }
}

// The role that a host last said, unless it is cut off.
fn role_of(seat: &Seat) -> Option<Role> {
    match seat.report {
        Some(report) if !seat.is_cut => report.role,
        _ => None,
    }
}

// What a role is called.
fn role_name(role: Role) -> &'static str {
    match role {
        Role::Primary => "the primary",
        Role::Backup => "the backup",
        Role::Joining => "is given a copy",
        Role::Draining => "takes over",
        Role::Alone => "alone",
        Role::Halted => "halted",
    }
}
