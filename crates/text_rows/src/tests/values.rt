use super::{Frame, wrong_text};
use std::test::Fail;

/// A value stands behind its type where it is returned.
const RETURNED: Frame = Frame {
    before: "define void @f ( ) { ret ",
    behind: "}",
    may_end: false,
};

/// Values behind their types, numbers at both ends of their ranges (LLVM 14, Constants).
static VALUES: [&str; 60] = [
    "i8 %x",
    "i8 %7",
    "i8 %2147483647",
    "i8 %\"x\"",
    "i8 * @g",
    "i8 * @7",
    "i8 * @\"g\"",
    "i1 1",
    "i1 -1",
    "i7 127",
    "i7 -64",
    "i8 0",
    "i8 -0",
    "i8 007",
    "i8 255",
    "i8 -128",
    "i16 65535",
    "i16 -32768",
    "i32 4294967295",
    "i32 -2147483648",
    "i63 9223372036854775807",
    "i63 -4611686018427387904",
    "i64 18446744073709551615",
    "i64 -9223372036854775808",
    "i65 18446744073709551615",
    "i65 -9223372036854775808",
    "i0 18446744073709551615",
    "float 18446744073709551615",
    "i8 * -9223372036854775808",
    "i1 true",
    "i1 false",
    "i8 * null",
    "i8 zeroinitializer",
    "i8 undef",
    "i8 poison",
    "i8 null",
    "[ 2 x i8 ] c\"ab\"",
    "[ 0 x i8 ] c\"\"",
    "[ 2 x i8 ] [ i8 1 , i8 2 ]",
    "[ 0 x i8 ] [ ]",
    "< 2 x i8 > < i8 1 , i8 2 >",
    "< 0 x i8 > < >",
    "< 1 x { i8 } > < { i8 } { i8 1 } >",
    "< 1 x { } > < { } { } >",
    "< 1 x { } * > < { } * null >",
    "{ } { }",
    "{ i8 } { i8 1 }",
    "{ i8 , i1 } { i8 1 , i1 true }",
    "< { } > < { } >",
    "< { i8 } > < { i8 1 } >",
    "< { i8 , { } } > < { i8 1 , { } { } } >",
    "< { { } } > < { { } { } } >",
    "< { < { } > } > < { < { } > < { } > } >",
    "i8 * getelementptr ( i8 , i8 * @g , i64 1 )",
    "i8 * getelementptr inbounds ( [ 2 x i8 ] , [ 2 x i8 ] * @g , i64 0 , i64 1 )",
    "i64 ptrtoint ( i8 * @g to i64 )",
    "i8 * inttoptr ( i64 8 to i8 * )",
    "i8 * bitcast ( i32 * @g to i8 * )",
    "i8 * addrspacecast ( i8 addrspace ( 1 ) * @g to i8 * )",
    "i64 ptrtoint ( i8 * getelementptr ( i8 , i8 * null , i64 1 ) to i64 )",
];

#[test]
fn values_are_read(rt: HostRuntime) -> Result<(), Fail> {
    for row in VALUES.iter() {
        let wrong = wrong_text(rt.alloc(), RETURNED, row)?;
        assert!(rt; wrong.is_none(), "{row}: {wrong:?}");
    }
    Ok(())
}
