// Byte runs, big-endian numbers and marks, written into lent buffers and read from a cursor.
#![tactic(auto)]

pub mod write;
