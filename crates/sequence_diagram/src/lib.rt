//! A run of a pair as a sequence diagram: what is told of it, which message made which arrow, and a drawing of that as SVG.
#![tactic(auto)]

mod aims;
mod arrows;
mod bars;
mod cargo;
mod columns;
mod drawing;
mod exchanges;
mod flights;
mod folds;
mod geometry;
mod kept;
mod legend;
mod lifelines;
mod lines;
mod marks;
mod moment;
mod notes;
mod outcomes;
mod picture;
mod place;
mod plan;
mod runs;
mod screens;
mod strokes;
mod texts;
mod told;
mod waits;
mod ways;

pub use aims::aim_of;
pub use arrows::{Arrow, Departure, arrow_to, departure_from};
pub use cargo::Carried;
pub use columns::Columns;
pub use exchanges::{Exchange, exchange_of};
pub use flights::{Flight, flight_to};
pub use lifelines::first_role;
pub use lines::{EventLines, lines_of};
pub use moment::{Cargo, Moment, NodeLook, delivered};
pub use notes::NoteText;
pub use outcomes::OutcomeText;
pub use picture::draw;
pub use place::{Lifeline, node_of, place_of, receiver_of, sender_of};
pub use waits::{OutputWait, waits_of};
