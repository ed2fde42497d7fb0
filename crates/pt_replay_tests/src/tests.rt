mod generated;
mod items;
mod pieces;
mod reports;
mod runs;
mod schedules;
mod streams;
