//! Runs with a server over links in memory.
mod failing;
mod gates;
mod lives;
mod moments;
mod peers;
mod scene;
mod stops;
mod stream;
mod text;
mod watched;
mod whole;
