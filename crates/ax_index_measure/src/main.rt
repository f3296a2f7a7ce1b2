//! Measures what the index writes for documents of 31 terms, a batch a document, over a disk in memory:
//! the bytes of the log, the pages that were merged, and how many parts the pages have in the end.
//!
//! The word of the command line is how many documents there are. What the figures mean stands in
//! bench/README.md; of the figures themselves nothing is proved.
#![tactic(auto)]

mod documents;
mod fill;

use crate::fill::{Figures, fill};
use ax_disk::{Extent, MemDisk};
use ax_store::StoreFault;
use std::alloc::Global;
use std::env;
use std::process::ExitCode;

/// How many bytes of room the disk has for a document, and beside the documents.
const DOCUMENT_ROOM: usize = 16_384;

const ROOM: usize = 1 << 20;

/// How many calls the disk has for a document, and beside the documents.
const DOCUMENT_CALLS: usize = 16;

const CALLS: usize = 1024;

/// How many documents the command line asks for.
fn documents_asked(rt: &HostRuntime) -> Option<u32> {
    let Ok(mut words) = env::args(rt) else {
        return None;
    };
    words.nth(1)?.as_str().parse().ok()
}

/// A fresh disk in memory for so many documents.
fn disk_for(alloc: Global, documents: u32) -> Result<MemDisk, StoreFault> {
    let (root, a, b) = (Vec::new(alloc), Vec::new(alloc), Vec::new(alloc));
    let count = documents as usize;
    let room = count.saturating_mul(DOCUMENT_ROOM).saturating_add(ROOM);
    let calls = count.saturating_mul(DOCUMENT_CALLS).saturating_add(CALLS);
    match MemDisk::make(alloc, root, a, b, room, calls, Vec::new(alloc)) {
        Ok(disk) => Ok(disk),
        Err(_) => Err(StoreFault::Memory),
    }
}

/// The figures after so many documents, and how many bytes the log has.
fn measure(alloc: Global, documents: u32) -> Result<(Figures, usize), StoreFault> {
    let mut disk = disk_for(alloc, documents)?;
    let figures = fill(alloc, &mut disk, documents)?;
    let bytes = disk.bytes(Extent::A).len().max(disk.bytes(Extent::B).len());
    Ok((figures, bytes))
}

fn main(rt: HostRuntime) -> ExitCode {
    let Some(documents) = documents_asked(&rt) else {
        let _ = eprintln!(rt; "give a number of documents");
        return ExitCode::FAILURE;
    };
    match measure(rt.alloc(), documents) {
        Ok((figures, bytes)) => {
            let _ = println!(rt; "documents {documents}");
            let _ = println!(rt; "bytes of the log {bytes}");
            let _ = println!(rt; "merged pages {}", figures.merged);
            let _ = println!(rt; "pages {}", figures.pages);
            let _ = println!(rt; "parts {}", figures.parts);
            let _ = println!(rt; "most parts of a page {}", figures.most_parts);
            ExitCode::SUCCESS
        }
        Err(fault) => {
            let _ = eprintln!(rt; "{fault:?}");
            ExitCode::FAILURE
        }
    }
}
