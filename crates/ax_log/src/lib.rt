//! The log of a store: log frames one after another in the area that counts, each of which becomes
//! durable whole or not at all.
//!
//! It stands on `ax_disk`, `ax_frame` for the bytes, `ax_pages` for what an area is, and `ax_area` for
//! which root slot counts and what an image of the disk is. It knows the versions up to the newest
//! one, and leaves what the frames say to the store. Its one contract: at each moment each image that
//! a crash may leave has the frames from before a call or the frames after it, and once the call has
//! answered Ok only the latter.
#![tactic(auto)]

mod commit;
mod fault;
mod form;
mod log;
mod open;
mod read;
mod root;
mod walk;
mod window;

pub use fault::LogFault;
pub use log::Log;

#[cfg(test)]
mod tests;
