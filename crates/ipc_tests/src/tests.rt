//! The messages, the calls, what a server answers, what a program says of itself, and calls of a tool.
mod answers;
mod body;
mod call;
mod frames;
mod program;
mod reverse;
mod takes;
