//! Texts of modules, read and refused. They are tests alone, in a crate of their own above the readers.
#![tactic(auto)]

#[cfg(test)]
mod tests;
