//! What no clause says of outside, command_line and thread_waits: each shelf and sink on its happy
//! path, what a file and a device do, who meets at a gate, which numbers a command line asks for,
//! and that a wait takes its time.
#![tactic(auto)]

#[cfg(test)]
mod devices;
#[cfg(test)]
mod gates;
#[cfg(test)]
mod waits;
#[cfg(test)]
mod words;
