//! Worked examples from the manual, and every decimal adjustment.
mod adjustments;
mod examples;
