mod chunks;
mod listeners;
mod pools;
mod rows;
mod slots;
