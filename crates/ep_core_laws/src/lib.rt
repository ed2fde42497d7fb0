//! Laws: what a schedule's machine keeps is what the steps so far say, whatever step is made in its tables.
//!
//! A machine keeps the tables of its sessions, threads and rows, and by row the write that a thread began last. ep_tables
//! says what each step makes of the tables, ep_stream_laws what a session keeps and told, ep_model what the steps so far
//! have come to. Here they meet: where tables and begun writes are what the steps so far say (`specs/Works`), they are so
//! after each step that is made next. That has four parts: the tables stand for the steps (`Works.follow`), each session's
//! slots, chunks, memory and stream are what the steps say (`specs/Stands`, over `specs/Kept`), rows and slots are at rest
//! over the writes so far (`specs/Rests`), and each begun write is its thread's last.
//!
//! Its one contract: the laws of these definitions, in `laws`, one for the start and one for each kind of step, and what a
//! step that can be made finds there: an id, a number, room, stack ids. No code runs here.
//!
//! What was chosen here, and why: docs/DECISIONS.md, "A schedule's machine".
#![tactic(auto)]

pub mod laws;
