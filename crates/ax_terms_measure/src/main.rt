//! Makes the terms of one document under one policy again and again, for a count of its instructions.
//!
//! The word of the command line is how many times. Standard input has the text of the policy on its
//! first line and that of the document on its second. It prints how many terms were made in all. What
//! the figures mean stands in bench/README.md.
#![tactic(auto)]

use ax_mean::{Memory, Tree};
use ax_policy::{Policy, read_policy};
use ax_terms::terms_of;
use ax_text::read_tree;
use std::alloc::Global;
use std::env;
use std::process::ExitCode;

/// How many times the command line asks for.
fn times_asked(rt: &HostRuntime) -> Option<u32> {
    let Ok(mut words) = env::args(rt) else {
        return None;
    };
    words.nth(1)?.as_str().parse().ok()
}

fn tree_of(alloc: Global, text: &str) -> Option<Tree> {
    read_tree(alloc, text.trim().as_bytes()).ok()
}

fn policy_of(alloc: Global, text: &str) -> Option<Policy> {
    read_policy(alloc, &tree_of(alloc, text)?).ok()
}

/// How many terms are made when those of the document are made so many times.
fn made(alloc: Global, policy: &Policy, document: &Tree, times: u32) -> Result<usize, Memory> {
    let mut made: usize = 0;
    for _ in 0..times {
        made = made.saturating_add(terms_of(alloc, policy, document)?.len());
    }
    Ok(made)
}

fn measure(alloc: Global, policy: &str, document: &str, times: u32) -> Option<usize> {
    let policy = policy_of(alloc, policy)?;
    let document = tree_of(alloc, document)?;
    made(alloc, &policy, &document, times).ok()
}

fn main(rt: HostRuntime) -> ExitCode {
    let Some(times) = times_asked(&rt) else {
        let _ = eprintln!(rt; "give a number of times");
        return ExitCode::FAILURE;
    };
    let mut input = rt.stdin();
    let mut policy = String::new(rt.alloc());
    let mut document = String::new(rt.alloc());
    if input.read_line(&mut policy).is_err() || input.read_line(&mut document).is_err() {
        let _ = eprintln!(rt; "a policy and a document are to be read");
        return ExitCode::FAILURE;
    }
    match measure(rt.alloc(), policy.as_str(), document.as_str(), times) {
        Some(made) => {
            let _ = println!(rt; "{made}");
            ExitCode::SUCCESS
        }
        None => {
            let _ = eprintln!(rt; "a text is no policy or no document");
            ExitCode::FAILURE
        }
    }
}
