//! Two small instruction sets, and the walks over bodies of them.

mod listed;
mod toy;
mod walks;
