//! Which modules small binaries become.

mod kernels;
