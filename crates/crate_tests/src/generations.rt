//! What no contract says: that a pair on threads comes to its end, and that its threads run at once.
mod gates;
mod pairs;
mod rows;
