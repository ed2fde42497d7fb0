//! A module for each crate that has its tests here.
mod events;
mod load;
mod numbers;
mod outside;
mod printing;
mod words;
