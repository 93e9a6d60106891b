//! Tests of the program by calls of `run`, and of connections over loopback that a desk serves.

mod answers;
mod clocks;
mod connections;
mod faults;
mod runs;
mod unsound;
