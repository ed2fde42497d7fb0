//! Lines in a page of HTML (the HTML standard) that shows the trace.
pub mod line;
pub mod text;
