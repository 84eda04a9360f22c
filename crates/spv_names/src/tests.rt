//! Which rule small modules break, and where.

mod kernels;
