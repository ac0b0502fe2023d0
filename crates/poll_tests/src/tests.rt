// The tests, by what they are of, lamps, and what is seen of runs.
mod batches;
mod horizons;
mod lamps;
mod noted;
mod polls;
mod seen;
