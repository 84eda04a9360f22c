//! Kernels of the covered subset, in a form of their own: what reads a text, what gives it its canonical form and what writes a binary
//! pass them on. Definitions say which module of text each one is.
#![tactic(auto)]

mod kernel;
mod names;

pub use kernel::{Kernel, KernelInst, KernelParam, ValueType};
pub use names::{Definition, Use};
