//! The names by which textual LLVM calls what SPIR-V has instructions or variables for: work-item
//! functions, barriers, fences and atomics of OpenCL C; and the words and numbers of scopes, orders and
//! storage. No call takes memory.
#![tactic(auto)]

mod atomic;
mod barrier;
mod laws;
mod ordering;
mod storage;
mod syncscope;
#[cfg(test)]
mod tests;
mod work_item;

pub use atomic::{AtomicCall, AtomicOp, atomic_name};
pub use barrier::{BarrierCall, barrier_name};
pub use laws::{
    atomics_by_grammar, numbers_and_names_agree, numbers_are_sums, reading_undoes_writing,
    scopes_come_back, tables_are_disjoint, words_are_read,
};
pub use ordering::{Ordering, mask_of, order_of};
pub use syncscope::{read_scope, scope_text};
pub use work_item::{name_of, work_item_name};
