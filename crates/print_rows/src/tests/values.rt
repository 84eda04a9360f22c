use super::misprinted;
use std::test::Fail;

/// Variables of types and values as they may be written, and as they are printed.
static ROWS: [(&str, &str); 19] = [
    ("@x = global half undef", "@x = global half undef\n"),
    ("@x = global float poison", "@x = global float poison\n"),
    (
        "@x = global double zeroinitializer",
        "@x = global double zeroinitializer\n",
    ),
    (
        "@x = global i8 addrspace(1)** null",
        "@x = global i8 addrspace(1)** null\n",
    ),
    (
        "@x = global %T addrspace(0)* null",
        "@x = global %T* null\n",
    ),
    (
        "@x = global <4 x i8*> zeroinitializer",
        "@x = global <4 x i8*> zeroinitializer\n",
    ),
    (
        "@x = global [0 x [2 x i8]] []",
        "@x = global [0 x [2 x i8]] []\n",
    ),
    (
        "@x = global [2 x i8] c\"a\\00\"",
        "@x = global [2 x i8] c\"a\\00\"\n",
    ),
    (
        "@x = global [2 x i8] [i8 1,i8 -2]",
        "@x = global [2 x i8] [i8 1, i8 -2]\n",
    ),
    ("@x = global {} {}", "@x = global {} {}\n"),
    ("@x = global <{}> <{}>", "@x = global <{}> <{}>\n"),
    (
        "@x = global {i8,i32} {i8 1,i32 2}",
        "@x = global { i8, i32 } { i8 1, i32 2 }\n",
    ),
    (
        "@x = global <{i8,i32}> <{i8 1,i32 2}>",
        "@x = global <{ i8, i32 }> <{ i8 1, i32 2 }>\n",
    ),
    (
        "@x = global <2 x i1> <i1 true,i1 false>",
        "@x = global <2 x i1> <i1 true, i1 false>\n",
    ),
    ("@x = global i8 007", "@x = global i8 7\n"),
    ("@x = global i8* @y", "@x = global i8* @y\n"),
    (
        "@x = global i8* getelementptr inbounds(i8,i8* @y,i64 1,i32 -2)",
        "@x = global i8* getelementptr inbounds (i8, i8* @y, i64 1, i32 -2)\n",
    ),
    (
        "@x = global i32* bitcast(i8* getelementptr(i8,i8* @y,i64 1) to i32*)",
        "@x = global i32* bitcast (i8* getelementptr (i8, i8* @y, i64 1) to i32*)\n",
    ),
    (
        "@x = global i64 ptrtoint(i8 addrspace(1)* addrspacecast(i8* @y to i8 addrspace(1)*) to i64)",
        "@x = global i64 ptrtoint (i8 addrspace(1)* addrspacecast (i8* @y to i8 addrspace(1)*) to i64)\n",
    ),
];

#[test]
fn types_and_values_are_printed(rt: HostRuntime) -> Result<(), Fail> {
    let wrong = misprinted(rt.alloc(), &ROWS)?;
    assert!(rt; wrong.is_none(), "{wrong:?}");
    Ok(())
}
