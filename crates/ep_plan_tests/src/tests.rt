//! Lines that are read, lines that are printed, and texts of a start.
mod auto;
mod printing;
mod reading;
