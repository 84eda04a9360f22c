//! Modules, printed and read again. They are tests alone, in a crate of their own above the readers and the printer.
#![tactic(auto)]

#[cfg(test)]
mod tests;
