//! Sessions that are open nowhere, and sessions over rows.
mod rows;
mod scene;
mod starts;
mod streams;
