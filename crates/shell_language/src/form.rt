//! The forms of lines: a table of what the shell takes, which `help` prints.

ghost use Rattle.std.specs.Prelude.{◌≡◌, ◌-◌, bytes_eq, if◌then◌else◌, map};
ghost use Rattle.std.specs.Option.{option_map};
ghost use Rattle.script_language.specs.Words.{words_of};
ghost use Rattle.shell_language.specs.Forms.{shape_of, shapes, word_of};
ghost use Rattle.shell_language.specs.Mistakes.{after_last, at, flaw_among, flaw_in, flaw_of, further, is_told, last_word, misfit, placed, wrong_byte};

use crate::kind::Kind;
use crate::kind::Kind::{Address, Byte, Bytes, Exactly, Number, Record, Text, Within};
use crate::mistake::Mistake;
use script_language::Words;

/// A form of lines: its first word, the words after that, how it is written, and what it does.
#[derive(Clone, Copy)]
pub struct Form {
    pub word: &'static str,
    pub kinds: &'static [Kind],
    pub usage: &'static str,
    pub meaning: &'static str,
}

// A table of forms, a row each.
macro_rules! forms {
    ($([$word:literal, [$($kind:expr),*], $usage:literal, $meaning:literal]),* $(,)?) => {
        [$(Form { word: $word, kinds: &[$($kind),*], usage: $usage, meaning: $meaning }),*]
    };
}

// All forms.
#[rattlefmt::skip]
static FORMS: [Form; 65] = forms![
    ["mem", [Address, Bytes(65_536)], "mem AAAA HH ..", "setup: these bytes from this address on"],
    ["load", [Record], "load :LLAAAATTDD..CC", "setup: a record of Intel HEX; the word load may be left out"],
    ["drives", [Within(1, 4)], "drives N", "setup: 1 to 4 drives"],
    ["levels", [Within(0, 7), Within(0, 7), Within(0, 7)], "levels P Q D", "setup: the levels of port 0, port 1 and the disk, 0 to 7"],
    ["sense", [Byte], "sense HH", "setup: the sense switches"],
    ["hosts", [Within(2, 64)], "hosts N", "setup: 2 to 64 hosts"],
    ["reads", [Exactly("shared")], "reads shared", "setup: the backup reads sectors from the shared disk itself"],
    ["sector", [Within(0, 3), Within(0, 76), Within(0, 31), Bytes(137)], "sector D T S HH ..", "setup: 137 times one byte, or up to 137 bytes and zeros"],
    ["fail", [Number], "fail K", "setup: the K-th access of the disk fails"],
    ["step", [Number, Number], "step N K", "node N makes at most K steps"],
    ["type", [Number, Byte], "type P HH", "a byte is typed at port P"],
    ["type", [Number, Text], "type P \"text\"", "text is typed there; \\r \\n \\\" \\\\ are one byte each"],
    ["key", [Number, Number, Number], "key N P I", "node N takes key I of port P"],
    ["send", [Number, Number], "send N I", "primary N sends log entry I"],
    ["send", [Number, Exactly("all")], "send N all", "all its entries that were not sent yet"],
    ["log", [Number, Number], "log M N", "log message M reaches backup N"],
    ["log", [Number, Exactly("all")], "log N all", "all log messages that have reached no node yet reach backup N"],
    ["ack", [Number], "ack N", "backup N acknowledges what it holds"],
    ["acked", [Number, Number], "acked M N", "acknowledgement M reaches primary N"],
    ["replay", [Number, Number], "replay N K", "backup N makes at most K moves"],
    ["release", [Number, Exactly("byte"), Number, Number], "release N byte P X", "node N sends byte X of port P to its terminal"],
    ["release", [Number, Exactly("write"), Number], "release N write X", "node N sends write X to the disk"],
    ["arrive", [Number], "arrive M", "message M, a byte, reaches its terminal"],
    ["arrive", [Exactly("all")], "arrive all", "all bytes that have not arrived yet do"],
    ["sent", [Number, Number, Number], "sent N P X", "node N hears that byte X of port P was accepted"],
    ["told", [Number, Number], "told N P", "the terminal of port P hears how many keys are covered"],
    ["put", [Number], "put M", "message M, a write, reaches the disk"],
    ["done", [Number, Number], "done M N", "the disk's answer M to a write reaches node N"],
    ["get", [Number, Number], "get N I", "the disk reads sector I of the drive and track of node N"],
    ["under", [Number, Number], "under M N", "sector M reaches node N"],
    ["fetch", [Number], "fetch N", "the disk reads the sector for which node N waits"],
    ["fetched", [Number, Number], "fetched M N", "the sector M that it waits for reaches node N"],
    ["suspect", [Number], "suspect N", "node N suspects its peer, and asks the arbiter"],
    ["drain", [Number, Number], "drain N K", "node N, which has won, makes at most K moves"],
    ["pair", [Number, Number], "pair N H", "node N, which is alone, begins a pair with spare host H"],
    ["freshen", [Number, Number], "freshen N K", "node N, which is alone, copies at most K stale pages early"],
    ["sendpart", [Number, Number], "sendpart N I", "node N sends part I of its image"],
    ["sendpart", [Number, Exactly("all")], "sendpart N all", "all its parts that were not sent yet"],
    ["part", [Number, Number], "part M N", "message M, a part, arrives at node N"],
    ["part", [Number, Exactly("all")], "part N all", "all parts that have reached no node yet reach node N"],
    ["stop", [Number], "stop N", "node N halts for good"],
    ["run", [Number, Number], "run N K", "the pair's ordinary day, for K turns of node N"],
    ["run", [Number, Number, Exactly("loss"), Within(0, 100), Number], "run N K loss P SEED", "the same; of 100 messages P are lost, repeated or overtaken"],
    ["rest", [], "rest", "brings the pair to rest, and says in how many events"],
    ["why", [], "why", "what is outstanding, what it waits for, and what brings it on"],
    ["show", [Number], "show P", "the bytes that terminal P has accepted"],
    ["screen", [Number], "screen P", "the same as text"],
    ["screen", [Number, Exactly("new")], "screen P new", "what of it was not shown as text before"],
    ["packet", [Number], "packet M", "the bytes of a message of the log"],
    ["node", [Number], "node N", "a node's role, generation and count"],
    ["last", [], "last", "the number of the last message"],
    ["sector", [Within(0, 3), Within(0, 76), Within(0, 31)], "sector D T S", "what the disk has there"],
    ["regs", [Number], "regs N", "the registers of node N's machine, as it is now"],
    ["look", [Number, Address], "look N AAAA", "16 bytes of its memory from address AAAA on"],
    ["look", [Number, Address, Within(1, 256)], "look N AAAA K", "K bytes of it"],
    ["dis", [Number, Address], "dis N AAAA", "8 instructions in it, in Intel's assembly language"],
    ["dis", [Number, Address, Within(1, 64)], "dis N AAAA K", "K instructions"],
    ["check", [], "check", "compares what is settled with the single machine"],
    ["picture", [], "picture", "the last events as a diagram"],
    ["picture", [Number, Number], "picture A B", "the events from A to B, counted from 0"],
    ["trace", [Exactly("on")], "trace on", "from here on what is printed is a script"],
    ["trace", [Exactly("off")], "trace off", "no longer"],
    ["help", [], "help", "this list"],
    ["help", [Exactly("refusals")], "help refusals", "the refusals: their numbers and their words"],
    ["quit", [], "quit", "ends the session; what comes after it is not read"],
];

/// All forms, in the order in which `help` prints them. What reads them by this call is proved without the whole table.
#[tactic(auto, unfolding(crate::specs::Forms::shapes))]
pub fn forms() -> &'static [Form]
    ensures { map shape_of result.now ≡ shapes }
{
    &FORMS
}

impl Form {
    // Of two mistakes the one that is told: this one, or that of the words after the first for this form, if the first is
    // its own.
    fn further<'a>(
        &'static self,
        first: &[u8],
        words: &Words<'a>,
        furthest: (usize, Mistake<'a>),
    ) -> (usize, Mistake<'a>)
        ensures { at result ≡ (if bytes_eq self.now.word.now first.now
            then further (shape_of self.now) (misfit words.now (shape_of self.now)) (at furthest.entry)
            else at furthest.entry) }
    {
        if self.word.as_bytes() != first {
            return furthest;
        }
        match self.first_wrong(&mut words.again()) {
            Some(found) if is_told(found, furthest) => found,
            Some(_) => furthest,
            None if furthest.0 == 0 => (0, Mistake::Range { form: self }),
            None => furthest,
        }
    }

    // The first word after the form's own that does not fit, by its place in the line, from 1; none if all do.
    fn first_wrong<'a>(&'static self, words: &mut Words<'a>) -> Option<(usize, Mistake<'a>)>
        ensures { placed result ≡ misfit words.old (shape_of self.now) }
    {
        let form = self;
        let mut place = 2usize;
        let mut rest = self.kinds;
        'kinds: while let [kind, after @ ..] = rest {
            let kind = *kind;
            let Some(word) = words.next() else {
                return Some((place, Mistake::Missing { place, form, kind }));
            };
            if !kind.fits(word) {
                let mistake = Mistake::Wrong {
                    place,
                    word,
                    form,
                    kind,
                };
                return Some((place, mistake));
            }
            place = place.saturating_add(1);
            rest = after;
        }
        self.after_last(words, place)
    }

    // What is wrong with the words after the last kind.
    fn after_last<'a>(
        &'static self,
        words: &mut Words<'a>,
        place: usize,
    ) -> Option<(usize, Mistake<'a>)>
        ensures { placed result ≡ after_last (shape_of self.now) (last_word (shape_of self.now)) place words.old }
    {
        match self.last_kind() {
            Some(Kind::Bytes(most)) => self.wrong_byte(words, place, most),
            Some(Kind::Text) => Some((place, Mistake::Text { form: self })),
            _ => {
                let form = self;
                let word = words.next()?;
                Some((place, Mistake::OneTooMany { place, word, form }))
            }
        }
    }

    /// What the last word of such a line has to be; none if it has one word alone.
    #[tactic(auto, using(crate::proofs::Mistakes::last_word_is))]
    pub fn last_kind(&self) -> Option<Kind>
        ensures { option_map word_of result ≡ last_word (shape_of self.now) }
    {
        self.kinds.last().copied()
    }

    // The first of the words that are left, after one byte, that is no byte, or that is one byte too many.
    fn wrong_byte<'a>(
        &'static self,
        words: &mut Words<'a>,
        first: usize,
        most: u32,
    ) -> Option<(usize, Mistake<'a>)>
        ensures { placed result ≡ wrong_byte (shape_of self.now) most (most - 1) first words.old }
    {
        let form = self;
        let kind = Kind::Byte;
        let mut place = first;
        let mut left = most.saturating_sub(1);
        'bytes: while let Some(word) = words.next() {
            if left == 0 {
                let mistake = Mistake::Surplus {
                    place,
                    word,
                    form,
                    most,
                };
                return Some((place, mistake));
            }
            if !kind.fits(word) {
                let mistake = Mistake::Wrong {
                    place,
                    word,
                    form,
                    kind,
                };
                return Some((place, mistake));
            }
            left -= 1;
            place = place.saturating_add(1);
        }
        None
    }
}

// Whether the first of two mistakes is told: if it is at the later place; or at the same place, if the other is that there is a
// word too many, where this form expects a number of its range.
fn is_told<'a>(found: (usize, Mistake<'a>), furthest: (usize, Mistake<'a>)) -> bool
    ensures { result ≡ is_told (at found.entry) (at furthest.entry) }
{
    furthest.0 < found.0 || furthest.0 == found.0 && furthest.1.gives_way(found.1)
}

/// What is wrong with a line that has no meaning: its first word is none of the forms', or a word does not fit the form
/// that the line follows the furthest.
#[tactic(auto, using(crate::proofs::Mistakes::among_all))]
pub fn mistake_in(text: &[u8]) -> Mistake<'_>
    ensures { flaw_of result ≡ flaw_in (words_of text.now) }
{
    let mut words = Words::of(text);
    let Some(first) = words.next() else {
        return Mistake::Blank;
    };
    mistake_among(forms(), first, &words)
}

// The same for these forms, by the first word and those after it.
fn mistake_among<'a>(forms: &'static [Form], first: &'a [u8], words: &Words<'a>) -> Mistake<'a>
    ensures { flaw_of result ≡ flaw_among (map shape_of forms.now) first.now words.now }
{
    let mut furthest = (0usize, Mistake::Unknown { word: first });
    let mut rest = forms;
    'forms: while let [form, after @ ..] = rest {
        furthest = form.further(first, words, furthest);
        rest = after;
    }
    furthest.1
}
