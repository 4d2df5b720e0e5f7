//! The terminal of a console: keys and commands that are typed, and what appears on the screen; and the lines of a pair that runs,
//! keys to its guest and accepted bytes to its terminals.
#![tactic(auto)]

mod acts;
mod character;
mod command;
mod completing;
mod cursor_line;
mod desk;
mod display;
mod echo;
mod edit;
mod keyboard;
mod keys;
mod lines;
mod listener;
mod note;
mod port;
mod redraw;
mod ring;
mod screen;
mod sequence;
mod signs;
mod welcome;

pub use command::{Command, HELP, Keyword, Mistake, Order, order_of, path_in, rest_in};
pub use cursor_line::{CursorLine, MOST_BYTES};
pub use desk::{Act, Desk, Done, MOST_LINES};
pub use display::Display;
pub use echo::show_all;
pub use edit::Edit;
pub use keyboard::{Keyboard, Stroke};
pub use keys::{Heard, KeySource, TerminalKeys};
pub use lines::Lines;
pub use listener::{Ending, Interpreter, Listener, listen};
pub use note::DisplayNote;
pub use port::Port;
pub use redraw::Redraw;
pub use screen::{Screen, Shown};
pub use sequence::Sequence;
pub use signs::Signs;
pub use welcome::greeting;
