//! The terminal of a console: what no contract says of its keys, its commands, its display and its threads.
mod desk;
mod keys;
mod listening;
mod orders;
mod paper;
mod showing;
