use super::unbroken;
use std::test::Fail;

/// Texts up to a number that is out of its range, and from it on. Numbers of the grammar's own are below 2^63.
static OWN: [(&str, &str); 20] = [
    ("%T = type [", "-1 x i8]"),
    ("%T = type [", "9223372036854775808 x i8]"),
    ("%T = type [", "99999999999999999999 x i8]"),
    ("%T = type <", "-1 x i8>"),
    ("%T = type <", "9223372036854775808 x i8>"),
    ("%T = type i8 addrspace(", "-1)*"),
    ("%T = type i8 addrspace(", "9223372036854775808)*"),
    ("@x = addrspace(", "9223372036854775808) global i8 1"),
    ("@x = addrspace(", "-1) global i8 1"),
    ("@x = global i8 1, align ", "-1"),
    ("@x = global i8 1, align ", "9223372036854775808"),
    ("define void @f(i8 align ", "9223372036854775808) {"),
    ("define void @f(i8 dereferenceable(", "-1)) {"),
    (
        "define void @f(i8 dereferenceable(",
        "9223372036854775808)) {",
    ),
    (
        "define void @f(i8 dereferenceable_or_null(",
        "9223372036854775808)) {",
    ),
    ("define void @f() { alloca i8, align ", "-1 ret void }"),
    (
        "define void @f() { load i8, i8* %p, align ",
        "9223372036854775808",
    ),
    (
        "define void @f() { store atomic i8 1, i8* %p seq_cst, align ",
        "9223372036854775808",
    ),
    ("define void @f() { extractvalue {i8} %s, ", "-1"),
    (
        "define void @f() { extractvalue {i8} %s, ",
        "9223372036854775808",
    ),
];

/// Numbers below and above the range of their type: that of an integer type of 1 to 64 bits, else that of 64 bits.
static VALUES: [(&str, &str); 40] = [
    ("@x = global i1 ", "-2"),
    ("@x = global i1 ", "2"),
    ("@x = global i7 ", "-65"),
    ("@x = global i7 ", "128"),
    ("@x = global i8 ", "-129"),
    ("@x = global i8 ", "256"),
    ("@x = global i16 ", "-32769"),
    ("@x = global i16 ", "65536"),
    ("@x = global i32 ", "-2147483649"),
    ("@x = global i32 ", "4294967296"),
    ("@x = global i63 ", "-4611686018427387905"),
    ("@x = global i63 ", "9223372036854775808"),
    ("@x = global i64 ", "-9223372036854775809"),
    ("@x = global i64 ", "18446744073709551616"),
    ("@x = global i65 ", "-9223372036854775809"),
    ("@x = global i65 ", "18446744073709551616"),
    ("@x = global i0 ", "-9223372036854775809"),
    ("@x = global i0 ", "18446744073709551616"),
    ("@x = global float ", "-9223372036854775809"),
    ("@x = global float ", "18446744073709551616"),
    ("@x = global i8* ", "-9223372036854775809"),
    ("@x = global i8* ", "18446744073709551616"),
    ("@x = global <2 x i8> ", "-9223372036854775809"),
    ("@x = global <2 x i8> ", "18446744073709551616"),
    (
        "@x = global i128 ",
        "-170141183460469231731687303715884105729",
    ),
    ("@x = global i8 ", "00256"),
    ("@x = global [1 x i8] [i8 ", "256]"),
    ("@x = global {i1} {i1 ", "2}"),
    ("@x = global i8* inttoptr (i8 ", "256 to i8*)"),
    ("@x = global i8* getelementptr (i8, i8* @x, i8 ", "256)"),
    ("define void @f() { add i8 ", "256, 1"),
    ("define void @f() { add i8 1, ", "-129"),
    ("define void @f() { phi i8 [", "256, %a]"),
    ("define void @f() { alloca i8, i8 ", "256"),
    ("define void @f() { store i1 ", "2, i1* %p"),
    ("define void @f() { call void @f(i8 zeroext ", "256)"),
    ("define void @f() { ret i8 ", "256 }"),
    ("define void @f() { switch i8 ", "256, label %a []"),
    (
        "define void @f() { switch i8 1, label %a [i8 ",
        "256, label %b]",
    ),
    ("!0 = !{i8 ", "256}"),
];

/// Digits of names, nodes and groups of attributes are below 2^31.
static NAMES: [(&str, &str); 22] = [
    ("", "%2147483648 = type i8"),
    ("%T = type ", "%2147483648"),
    ("", "@2147483648 = global i8 1"),
    ("@x = global i8* ", "@2147483648"),
    ("define void ", "@2147483648() {"),
    ("declare void ", "@99999999999999999999()"),
    ("define void @f(i8 ", "%2147483648) {"),
    ("define void @f() { ", "2147483648: ret void }"),
    ("define void @f() { ", "%2147483648 = add i8 1, 2"),
    ("define void @f() { ret i8 ", "%2147483648 }"),
    ("define void @f() { br label ", "%2147483648 }"),
    ("define void @f() { phi i8 [1, ", "%2147483648]"),
    ("define void @f() { call void ", "@2147483648()"),
    ("define void @f() { call void @f() ", "#2147483648"),
    ("", "!2147483648 = !{}"),
    ("!0 = !{", "!2147483648}"),
    ("!a = !{", "!2147483648}"),
    ("@x = global i8 1, !a ", "!2147483648"),
    ("define void @f() !a ", "!2147483648 {"),
    ("define void @f() { fence seq_cst, !a ", "!2147483648"),
    ("define void @f() ", "#2147483648 {"),
    ("attributes ", "#2147483648 = { }"),
];

#[test]
fn numbers_out_of_range_are_refused(rt: HostRuntime) -> Result<(), Fail> {
    let tables: [&[(&str, &str)]; 3] = [&OWN, &VALUES, &NAMES];
    for table in tables {
        let wrong = unbroken(rt.alloc(), 4, table)?;
        assert!(rt; wrong.is_none(), "{wrong:?}");
    }
    Ok(())
}
