//! Lines as objects of JSON (RFC 8259).
pub mod fields;
pub mod line;
pub mod nest;
pub mod stack;
pub mod value;
