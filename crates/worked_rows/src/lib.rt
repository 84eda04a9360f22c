//! Worked examples that go through the whole program. They are tests alone, in a crate of their own above all others.
#![tactic(auto)]

#[cfg(test)]
mod tests;
