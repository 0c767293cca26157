mod crossing;
mod memory;
mod remains;
mod sides;
mod threads;
