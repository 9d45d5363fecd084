//! What is handed to other threads.

mod board;
mod memory;
mod ring;
