//! The commands of a console, and how a line spells them.
ghost use Rattle.std.specs.Prelude.{◌≡◌, ◌<◌, ◌≤◌, IfSome, length, map};
ghost use Rattle.console_terminal.specs.Commands.{address_of, after_word, byte_of, bytes_before_space, command_by, command_of, count_of, digit_of, drive_of, first_word, hexadecimal_of, is_fit_end, is_same_word, keyword_among, keyword_of, long_number_of, longer, mistake_text, number_of, order_of, path_in, plain_command, port_of, rest_in, spaces_before, span_of, speed_of};

use crate::port::Port;

/// What a command line asks for.
#[derive(Debug, Clone, Copy, PartialEq, Eq)]
pub enum Command {
    /// The host of this number fails, and its peer is told so.
    Stop(u8),
    /// The host of this number stands still.
    Freeze(u8),
    /// It goes on.
    Thaw(u8),
    /// One more spare host comes.
    Spare,
    /// The link loses every packet.
    Cut,
    /// It loses every packet, and hosts no longer see each other.
    Part,
    /// It delivers each.
    Mend,
    /// Of 100 packets it loses so many.
    Drop(u8),
    /// The guest makes at most so many steps a second; with 0 it runs as fast as it can.
    Speed(u32),
    /// How the pair is.
    Status,
    /// The registers of the guest that serves are shown.
    Registers,
    /// So many bytes of its memory are shown, from an address on.
    Memory { from: u16, count: u16 },
    /// So many instructions in its memory are shown, from an address on.
    Listing { from: u16, count: u16 },
    /// One turns to the terminal of this port.
    Terminal(Port),
    /// The disk of this drive is saved to the file that the line names.
    Save(u8),
    /// What has become of the hosts is drawn, to the file that the line names.
    Picture,
    /// What the lines of a file say is done, which the line names.
    Do,
    /// Which commands there are.
    Help,
    /// The console ends.
    Quit,
}

/// What a command line is by its first word.
#[derive(Debug, Clone, Copy, PartialEq, Eq)]
pub enum Keyword {
    Stop,
    Freeze,
    Thaw,
    Spare,
    Cut,
    Part,
    Mend,
    Drop,
    Speed,
    Status,
    Regs,
    Look,
    Dis,
    Terminal,
    Save,
    Picture,
    Do,
    Help,
    Quit,
}

/// What is wrong with a line.
#[derive(Debug, Clone, Copy, PartialEq, Eq)]
pub enum Mistake {
    /// Its first word is no command.
    Unknown,
    /// What comes after the first word does not fit it.
    Unfit(Keyword),
}

/// What a line asks for.
#[derive(Debug, Clone, Copy, PartialEq, Eq)]
pub enum Order {
    /// Nothing: it has no word.
    Nothing,
    Command(Command),
    Mistake(Mistake),
}

// The least speed above 0. A guest makes up to so many steps in one turn, so a slower one would stand still for seconds.
const LEAST_SPEED: u32 = 10_000;

/// The commands, a line each.
pub const HELP: &str = "\
stop N       host N fails, and its peer is told\r\n\
freeze N     host N, a process, stands still\r\n\
thaw N       host N goes on\r\n\
spare        one more spare host comes\r\n\
cut          the link loses every packet\r\n\
part         hosts that are processes no longer see each other\r\n\
mend         the link delivers every packet\r\n\
drop N       the link loses N of 100 packets\r\n\
speed N      at most N steps a second (2 MHz: about 300000); 0 is no limit\r\n\
status       how the pair is\r\n\
regs         the registers of the machine that serves, as it is now\r\n\
look A K     K bytes of its memory, 1 to 256, from address A on; 16 if K is left out\r\n\
dis A K      K instructions, 1 to 64, in its memory from address A on; 8 if K is left out\r\n\
terminal P   turns to the terminal of port 0 or 1\r\n\
save D FILE  the disk of drive D, 0 to 3, as it is now, is written to a file\r\n\
picture FILE what has become of the hosts so far is drawn, as an SVG file\r\n\
do FILE      what the lines of a file say is done, as by --do\r\n\
help         these lines\r\n\
quit         ends the console\r\n\
The escape key once more types that key itself; ESC or Ctrl-C leaves the line.\r\n\
Cursor keys, Home, End, Backspace, Delete, Ctrl-U and Ctrl-K edit it; Up and Down call lines back.\r\n\
Tab completes a command, or lists those that begin so.";

/// Each keyword with its word.
pub(crate) static KEYWORDS: [(&[u8], Keyword); 19] = [
    (b"stop", Keyword::Stop),
    (b"freeze", Keyword::Freeze),
    (b"thaw", Keyword::Thaw),
    (b"spare", Keyword::Spare),
    (b"cut", Keyword::Cut),
    (b"part", Keyword::Part),
    (b"mend", Keyword::Mend),
    (b"drop", Keyword::Drop),
    (b"speed", Keyword::Speed),
    (b"status", Keyword::Status),
    (b"regs", Keyword::Regs),
    (b"look", Keyword::Look),
    (b"dis", Keyword::Dis),
    (b"terminal", Keyword::Terminal),
    (b"save", Keyword::Save),
    (b"picture", Keyword::Picture),
    (b"do", Keyword::Do),
    (b"help", Keyword::Help),
    (b"quit", Keyword::Quit),
];

/// What a line asks for. Its words have spaces between them, and letters of either case.
pub fn order_of(line: &[u8]) -> Order
    ensures { result ≡ order_of line.now }
{
    let (word, after) = next_word(line);
    if word.is_empty() {
        return Order::Nothing;
    }
    let Some(keyword) = keyword_of(word) else {
        return Order::Mistake(Mistake::Unknown);
    };
    let (value, after) = next_word(after);
    let (more, after) = next_word(after);
    let (rest, _) = next_word(after);
    match command_by(keyword, value, more) {
        Some(command) if is_fit_end(keyword, more, rest) => Order::Command(command),
        _ => Order::Mistake(Mistake::Unfit(keyword)),
    }
}

// Whether a line of this keyword may have this word, or none, after the one that is its value, and this one, or none, after that.
fn is_fit_end(keyword: Keyword, more: &[u8], rest: &[u8]) -> bool
    ensures { result ≡ is_fit_end keyword more.now rest.now }
{
    match keyword {
        Keyword::Save => !more.is_empty(),
        Keyword::Look | Keyword::Dis => rest.is_empty(),
        Keyword::Picture | Keyword::Do => true,
        _ => more.is_empty(),
    }
}

/// The file that a line of `picture` or `do` names: all that comes after its first word.
pub fn rest_in(line: &[u8]) -> &[u8]
    ensures { result.now ≡ rest_in line.now }
{
    let (_, after) = next_word(line);
    let (_, path) = after.split_at(spaces_before(after));
    path
}

/// The file that a line of `save` names: all that comes after its second word.
pub fn path_in(line: &[u8]) -> &[u8]
    ensures { result.now ≡ path_in line.now }
{
    let (_, after) = next_word(line);
    let (_, rest) = next_word(after);
    let (_, path) = rest.split_at(spaces_before(rest));
    path
}

// The next word of a line, which is empty if there is none, and what is after it.
fn next_word(line: &[u8]) -> (&[u8], &[u8])
    ensures word { result.0.now ≡ first_word line.now }
    ensures after { result.1.now ≡ after_word line.now }
{
    let (_, rest) = line.split_at(spaces_before(line));
    rest.split_at(bytes_before_space(rest))
}

// How many spaces a line begins with.
fn spaces_before(line: &[u8]) -> usize
    ensures within { result ≤ length line.now }
    ensures exact { result ≡ spaces_before line.now }
{
    line.iter().take_while(|byte| **byte == b' ').count()
}

// How many bytes come before the first space.
fn bytes_before_space(line: &[u8]) -> usize
    ensures within { result ≤ length line.now }
    ensures exact { result ≡ bytes_before_space line.now }
{
    line.iter().take_while(|byte| **byte != b' ').count()
}

// The keyword that a word is.
fn keyword_of(word: &[u8]) -> Option<Keyword>
    ensures { result ≡ keyword_of word.now }
{
    keyword_among(&KEYWORDS, word)
}

// The keyword of the first of these rows that has the word.
fn keyword_among(rows: &[(&[u8], Keyword)], word: &[u8]) -> Option<Keyword>
    ensures { result ≡ keyword_among (map (λ row. (row.0.now, row.1)) rows.now) word.now }
{
    let mut rest = rows;
    'rows: while let [(text, keyword), after @ ..] = rest {
        if is_same_word(word, text) {
            return Some(*keyword);
        }
        rest = after;
    }
    None
}

/// Whether two words are the same but for the case of letters.
pub(crate) fn is_same_word(a: &[u8], b: &[u8]) -> bool
    ensures { result ≡ is_same_word a.now b.now }
{
    a.eq_ignore_ascii_case(b)
}

// The command of a keyword with the two words after it, each of which is empty if there is none.
fn command_by(keyword: Keyword, value: &[u8], more: &[u8]) -> Option<Command>
    ensures { result ≡ command_by keyword value.now more.now }
{
    match keyword {
        Keyword::Look => {
            let (from, count) = span_of(value, more, 16, 256)?;
            Some(Command::Memory { from, count })
        }
        Keyword::Dis => {
            let (from, count) = span_of(value, more, 8, 64)?;
            Some(Command::Listing { from, count })
        }
        _ => command_of(keyword, value),
    }
}

// The command of a keyword other than of memory with the word after it, which is empty if there is none.
fn command_of(keyword: Keyword, value: &[u8]) -> Option<Command>
    ensures { result ≡ command_of keyword value.now }
{
    match keyword {
        Keyword::Stop => Some(Command::Stop(number_of(value)?)),
        Keyword::Freeze => Some(Command::Freeze(number_of(value)?)),
        Keyword::Thaw => Some(Command::Thaw(number_of(value)?)),
        Keyword::Drop => Some(Command::Drop(number_of(value)?)),
        Keyword::Speed => Some(Command::Speed(speed_of(value)?)),
        Keyword::Terminal => Some(Command::Terminal(port_of(value)?)),
        Keyword::Save => Some(Command::Save(drive_of(value)?)),
        Keyword::Picture => (!value.is_empty()).then_some(Command::Picture),
        Keyword::Do => (!value.is_empty()).then_some(Command::Do),
        _ if value.is_empty() => plain_command(keyword),
        _ => None,
    }
}

// The command of a keyword with nothing after it.
fn plain_command(keyword: Keyword) -> Option<Command>
    ensures { result ≡ plain_command keyword }
{
    match keyword {
        Keyword::Spare => Some(Command::Spare),
        Keyword::Cut => Some(Command::Cut),
        Keyword::Part => Some(Command::Part),
        Keyword::Mend => Some(Command::Mend),
        Keyword::Status => Some(Command::Status),
        Keyword::Regs => Some(Command::Registers),
        Keyword::Help => Some(Command::Help),
        Keyword::Quit => Some(Command::Quit),
        _ => None,
    }
}

// The port whose number a word is.
fn port_of(word: &[u8]) -> Option<Port>
    ensures { result ≡ port_of word.now }
{
    match word {
        [b'0'] => Some(Port::Zero),
        [b'1'] => Some(Port::One),
        _ => None,
    }
}

// An address, and how many from there on: as many as usual if no second word says it.
fn span_of(value: &[u8], more: &[u8], usual: u16, greatest: u16) -> Option<(u16, u16)>
    ensures { result ≡ span_of value.now more.now usual greatest }
{
    let from = address_of(value)?;
    let count = count_of(more, usual, greatest)?;
    Some((from, count))
}

// The number, from 1 to the greatest, that a word spells; the usual one if there is no word.
fn count_of(word: &[u8], usual: u16, greatest: u16) -> Option<u16>
    ensures { result ≡ count_of word.now usual greatest }
{
    if word.is_empty() {
        return Some(usual);
    }
    let count = long_number_of(word)?;
    if 1 <= count && count <= u32::from(greatest) {
        Some(count as u16)
    } else {
        None
    }
}

// The address that four hexadecimal digits spell.
fn address_of(word: &[u8]) -> Option<u16>
    ensures { result ≡ address_of word.now }
{
    let [first, second, third, fourth] = word else {
        return None;
    };
    let high = byte_of(*first, *second)?;
    let low = byte_of(*third, *fourth)?;
    Some(u16::from(high) * 256 + u16::from(low))
}

// The byte that two hexadecimal digits spell.
fn byte_of(high: u8, low: u8) -> Option<u8>
    ensures { result ≡ byte_of high low }
{
    let high = hexadecimal_of(high)?;
    let low = hexadecimal_of(low)?;
    Some(high * 16 + low)
}

// The number that a hexadecimal digit is.
fn hexadecimal_of(byte: u8) -> Option<u8>
    ensures digit { result ≡ hexadecimal_of byte }
    ensures within { IfSome result (λ digit. digit < 16) }
{
    match byte {
        b'0'..=b'9' => Some(byte - b'0'),
        b'A'..=b'F' => Some(byte - b'A' + 10),
        b'a'..=b'f' => Some(byte - b'a' + 10),
        _ => None,
    }
}

// The drive whose number a word is.
fn drive_of(word: &[u8]) -> Option<u8>
    ensures { result ≡ drive_of word.now }
{
    match word {
        [digit @ b'0'..=b'3'] => digit_of(*digit),
        _ => None,
    }
}

// The number that one or two decimal digits spell.
fn number_of(word: &[u8]) -> Option<u8>
    ensures { result ≡ number_of word.now }
{
    match word {
        [units] => digit_of(*units),
        [tens, units] => Some(digit_of(*tens)? * 10 + digit_of(*units)?),
        _ => None,
    }
}

// The speed that a word spells: 0, or a number from 10,000 to 999,999,999.
fn speed_of(word: &[u8]) -> Option<u32>
    ensures { result ≡ speed_of word.now }
{
    let speed = long_number_of(word)?;
    (speed == 0 || speed >= LEAST_SPEED).then_some(speed)
}

// The number that decimal digits spell, 999,999,999 at most.
fn long_number_of(word: &[u8]) -> Option<u32>
    ensures { result ≡ long_number_of word.now }
{
    if word.is_empty() {
        return None;
    }
    let mut number = 0;
    let mut rest = word;
    'digits: while let [byte, after @ ..] = rest {
        number = longer(number, *byte)?;
        rest = after;
    }
    Some(number)
}

// The number that one digit more spells after those of a number, 999,999,999 at most.
fn longer(number: u32, byte: u8) -> Option<u32>
    ensures { result ≡ longer number byte }
{
    let digit = digit_of(byte)?;
    if number >= 100_000_000 {
        return None;
    }
    Some(number * 10 + u32::from(digit))
}

// The number that a decimal digit is.
fn digit_of(byte: u8) -> Option<u8>
    ensures { result ≡ digit_of byte }
{
    match byte {
        b'0'..=b'9' => Some(byte - b'0'),
        _ => None,
    }
}

impl Mistake {
    /// What is said of it.
    pub fn text(self) -> &'static str
        ensures { result.now ≡ mistake_text self }
    {
        match self {
            Mistake::Unknown => "no such command; `help` lists them",
            Mistake::Unfit(Keyword::Stop) => "`stop` is followed by the number of a host",
            Mistake::Unfit(Keyword::Freeze) => "`freeze` is followed by the number of a host",
            Mistake::Unfit(Keyword::Thaw) => "`thaw` is followed by the number of a host",
            Mistake::Unfit(Keyword::Drop) => "`drop` is followed by a number from 0 to 99",
            Mistake::Unfit(Keyword::Speed) => {
                "`speed` is followed by 0, or by a number from 10000 to 999999999"
            }
            Mistake::Unfit(Keyword::Look) => {
                "`look` is followed by an address, four hexadecimal digits, and how many, 1 to 256"
            }
            Mistake::Unfit(Keyword::Dis) => {
                "`dis` is followed by an address, four hexadecimal digits, and how many, 1 to 64"
            }
            Mistake::Unfit(Keyword::Terminal) => "`terminal` is followed by 0 or 1",
            Mistake::Unfit(Keyword::Save) => {
                "`save` is followed by a drive, 0 to 3, and the name of a file"
            }
            Mistake::Unfit(Keyword::Picture) => "`picture` is followed by the name of a file",
            Mistake::Unfit(Keyword::Do) => "`do` is followed by the name of a file",
            Mistake::Unfit(_) => "nothing comes after that word",
        }
    }
}
