//! Texts made of lines: words, numbers and the lines of hinted logs, read and written exactly, with the first fault where a text isn't of its form.
#![tactic(auto)]

mod fault;
mod log_line;
mod number;
mod reader;
mod threads;
mod words;
mod writing;

pub use fault::{ReadFault, TextFault};
pub use log_line::log_line_of;
pub use reader::Reader;
pub use words::{numbers_after, strip_name};
pub use writing::{put_line, put_log_line};
