//! Binaries built into modules, or refused by rules of sections, ids and functions. They are tests alone, in a crate of their own.
#![tactic(auto)]

#[cfg(test)]
mod tests;
