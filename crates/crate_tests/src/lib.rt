//! Tests of the processor, the devices, the log, the parts of a pair, and its threads, over the public items of their crates: a crate of
//! their own, so that each of those is proved once.
#![tactic(auto)]

#[cfg(test)]
mod answers;
#[cfg(test)]
mod boards;
#[cfg(test)]
mod channels;
#[cfg(test)]
mod console;
#[cfg(test)]
mod contests;
#[cfg(test)]
mod coverage;
#[cfg(test)]
mod crashes;
#[cfg(test)]
mod disk;
#[cfg(test)]
mod disks;
#[cfg(test)]
mod entries;
#[cfg(test)]
mod folds;
#[cfg(test)]
mod follows;
#[cfg(test)]
mod generations;
#[cfg(test)]
mod images;
#[cfg(test)]
mod lines;
#[cfg(test)]
mod logs;
#[cfg(test)]
mod readers;
#[cfg(test)]
mod records;
#[cfg(test)]
mod replays;
#[cfg(test)]
mod screens;
#[cfg(test)]
mod scripts;
#[cfg(test)]
mod serial;
#[cfg(test)]
mod steps;
#[cfg(test)]
mod words;
