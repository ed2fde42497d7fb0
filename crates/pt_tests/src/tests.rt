//! The words of commands, and what the program's one call comes to.
mod peers;
mod plainly;
mod program;
mod run_words;
mod runs;
mod scene;
mod strangers;
mod texts;
mod trace_words;
mod words;
