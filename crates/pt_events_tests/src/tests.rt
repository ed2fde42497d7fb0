//! A module for the lines of single items in each form, over one that makes items, one for whole streams, one for files of trace
//! events, one for pages, and one for words.
mod entries;
mod files;
mod items;
mod lines;
mod objects;
mod pages;
mod streams;
mod words;
