// The tests, by what they are of, and the files of their runs.
mod devices;
mod drivers;
mod orders;
mod proofs;
mod read_tasks;
mod runs;
mod tasks;
mod walks;
mod words;
mod workers;
