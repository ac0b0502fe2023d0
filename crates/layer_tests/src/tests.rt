// The tests, by the layer that they are of, and what several of them use.
mod certificates;
mod choice;
mod faulty_files;
mod holding;
mod known;
mod lists;
mod logs;
mod pool;
mod rates;
mod shelves;
mod sinks;
mod tasks;
mod turns;
mod walks;
mod watches;
