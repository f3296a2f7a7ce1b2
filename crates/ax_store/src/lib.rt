//! The page store: a map from each page to the parts that count, which stand, by the log, on a disk.
//! In memory are their places, lengths and first bytes, and the low pairs of term pages; a payload is
//! read from the disk when it is asked for, through a page cache. The store knows kinds, keys and
//! lengths of parts; what a payload means is for the layers above. A scan of documents reads ahead:
//! texts that lie together come from one read.
//!
//! It stands on `ax_log` for the frames, on `ax_frame` for parts, on `ax_cache` for what was read
//! before, on `ax_shown` for payloads that contracts see and no code holds, on `ax_area` for what an
//! image of the disk says, and on `ax_area_laws` for what the store's parts say. Its one contract:
//! until a call answers that the disk failed, each image that a crash may leave says the store's
//! contents; a commit changes them whole or not at all, at each moment; and a store that is damaged is
//! refused at exactly the offset where it is.
//!
//! The contracts are in the words of all versions of the format: `store_contents` is what the store's
//! parts say, and `Says` what an image says. The payloads of the parts, `store_parts`, are spoken of
//! only where a part is counted, placed or read. That each image says the contents of a store which
//! agrees with its disk, and that it agrees still where nothing changed, are the lemmas `agrees_says`,
//! `agrees_still` and `agrees_same` of `proofs/StoreLemmas.antt`; what parts that are to be committed
//! say, `allowed_within`, `within_allowed` and `parts_say` of `proofs/CommitLemmas.antt`; of what was
//! read ahead `ahead_of_nothing`, `ahead_still` and `without_ahead` of `proofs/AheadLemmas.antt`.
#![tactic(auto)]

mod ahead_reads;
mod base_part;
mod batch;
mod cached;
mod change;
mod commit;
mod directory;
mod fault;
mod kept_part;
mod load;
mod making;
mod new_part;
mod open;
mod out_of_memory;
mod pages;
mod put_changes;
mod read_ahead;
mod reads;
mod row;
mod slot_reads;
mod slots;
mod store;
mod take_parts;
mod term_pages;
mod term_reads;
mod term_row;
mod together;
mod window;

pub use ax_cache::{LruPages, NoPages};
pub use ax_frame::Part;
pub use ax_pages::Page;
pub use batch::Batch;
pub use fault::StoreFault;
pub use out_of_memory::Memory;
pub use pages::Meta;
pub use read_ahead::ReadAhead;
pub use reads::Head;
pub use store::{Store, StoreFrames, StoreSlot};
