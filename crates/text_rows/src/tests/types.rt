use super::{Frame, wrong_text};
use std::test::Fail;

/// A type stands before a parameter's name.
const PARAMETER: Frame = Frame {
    before: "define void @f ( ",
    behind: "%x ) { ret void }",
    may_end: false,
};

/// Types (LLVM 14, Type System).
static TYPES: [&str; 38] = [
    "void",
    "half",
    "float",
    "double",
    "i1",
    "i8",
    "i32",
    "i64",
    "i65",
    "i0",
    "i08",
    "i99999999999999999999",
    "%T",
    "%7",
    "%007",
    "%2147483647",
    "%\"T\"",
    "%t.-$_9",
    "i8 *",
    "i8 * *",
    "i8 addrspace ( 1 ) *",
    "i8 addrspace ( 0 ) * * addrspace ( 9223372036854775807 ) *",
    "%T *",
    "[ 2 x i8 ]",
    "[ 0 x i8 ]",
    "[ -0 x i8 ]",
    "[ 007 x i8 ]",
    "[ 9223372036854775807 x i8 ]",
    "[ 2 x [ 3 x i8 * ] ] *",
    "< 2 x i8 >",
    "< 9223372036854775807 x i8 addrspace ( 1 ) * > *",
    "{ }",
    "{ i8 }",
    "{ i8 , i16 * , %T }",
    "{ { } , [ 1 x { } ] } *",
    "< { } >",
    "< { i8 } >",
    "< { i8 , < { i8 , < 2 x i8 > } > } > *",
];

#[test]
fn types_are_read(rt: HostRuntime) -> Result<(), Fail> {
    for row in TYPES.iter() {
        let wrong = wrong_text(rt.alloc(), PARAMETER, row)?;
        assert!(rt; wrong.is_none(), "{row}: {wrong:?}");
    }
    Ok(())
}
