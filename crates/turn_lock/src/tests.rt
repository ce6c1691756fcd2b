//! Worked examples on one thread, and threads that take turns.
mod rows;
mod tally;
mod threads;
