//! Histories of a journal, and of a registry over one.
mod journal;
mod registry;
