//! Types and values of LLVM 14's assembly language, which nest, read from the tokens of a text.
#![tactic(auto)]

mod laws;
mod nesting;
mod numerals;
mod openings;
mod singles;
#[cfg(test)]
mod tests;
mod types;
mod value_openings;
mod values;

pub use laws::{
    refused_types_derive_nothing, refused_values_derive_nothing, types_are_read_in_one_way,
    types_leave_one_rest, values_leave_one_rest,
};
pub use nesting::{TOO_DEEP, too_deep};
pub use numerals::typed_number;
pub use singles::single_value;
pub use types::read_type;
pub use values::{read_typed, read_value};
