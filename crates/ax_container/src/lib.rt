//! What the store holds, and the change that each write, another policy and a step of the
//! transformation make to it: definitions that `ax_image`, `ax_machine`, `ax_plain` and the top call
//! cite in common, and laws about them. A program keeps pages, maps and counts; these definitions know
//! a list of whole documents, each with the policy by which it is indexed, and nothing else.
//!
//! Stands on `ax_storable`, which says what a document is that a store can hold, on `ax_tree` and `ax_policy`.
//! Its one contract: a write changes the entry of one number and
//! leaves all others (`a_write_is_at_one_number`), is refused for a cause alone
//! (`a_write_is_refused_for_a_cause`), after an upsert the container has the tree under its
//! id (`an_upsert_sets_one_document`), and each keeps a container sound (`a_write_keeps_soundness`,
//! `another_policy_keeps_soundness`).
#![tactic(auto)]

pub mod laws;
