//! Sockets, the clock, the process's name and facts, and standard input and output.
mod caller;
mod clock;
mod dock;
mod facts;
mod name;
mod paths;
mod socket;
mod standard;
