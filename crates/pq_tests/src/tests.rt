//! One file for each thing that is tested.
mod audits;
mod gates;
mod heap_held;
mod heap_one_seat;
mod heap_passes;
mod histories;
mod lanes;
mod lines;
mod plain;
mod pool;
mod streams;
mod tapes;
mod words;
