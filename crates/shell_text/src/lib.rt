//! The lines of the shell: what a line of input asks for, and the lines of a reply.
#![tactic(auto)]

mod grammar;
mod laws;
mod rows;
mod texts;
mod written;

pub use grammar::{BadLine, COUNT_MAX, LINE_MAX, read_decimal, read_line};
pub use laws::{lines_are_cut, lines_are_one_command, lines_are_read, serial_is_told};
pub use rows::{rows_of_lines, rows_of_lists, rows_of_sessions, rows_of_values};
pub use texts::{line_count, open_line, reply_line};
pub use written::{Line, TEXT_MAX};
