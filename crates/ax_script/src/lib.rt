//! The top call: it reads script lines from a source, serves each as one atomic step, and writes one
//! reply per line to a sink.
//!
//! Stands on `ax_engine`, which makes the step of a line over the documents on a disk, on `ax_machine`,
//! whose definitions say what a script means, on `ax_lines` for what a line asks for, and on `ax_base`
//! and `ax_disk` for the outside. Its one contract stands on `run`: what was written is the text of a run of the lines
//! that were read, no more steps of work were counted than these lines may count, at each moment a
//! crash leaves the documents after a prefix of these lines, at the end one with every acknowledged
//! line, and each status has its cause: the disk counts a fault in a run that ends by `DiskFault` and in no
//! other, and a store that is of a later version, or whose root is damaged, is told as that, whatever memory
//! there is.
#![tactic(auto)]

mod command_line;
mod opening;
mod reply_lines;
mod script_lines;
mod script_run;
mod serving;
mod status;

pub use script_run::run;
pub use serving::serve_line;
pub use status::Status;
