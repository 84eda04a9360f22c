use super::misprinted;
use std::test::Fail;

/// Items as they may be written, and as they are printed.
static ROWS: [(&str, &str); 16] = [
    ("", ""),
    (
        "source_filename = \"k.cl\" attributes #0 = { nounwind } !llvm.ident = !{ !0 }",
        "",
    ),
    ("target triple=\"spir64\"", "target triple = \"spir64\"\n"),
    (
        "target datalayout = \"e\\0a\\\\\\22\u{e9}\"",
        "target datalayout = \"e\\0A\\5C\\22\\C3\\A9\"\n",
    ),
    ("%T=type{i8,[2 x i8]*}", "%T = type { i8, [2 x i8]* }\n"),
    (
        "%\"T\" = type <{i8}> %\"a b\" = type {}",
        "%T = type <{ i8 }>\n%\"a b\" = type {}\n",
    ),
    ("%007 = type %\"1\"", "%7 = type %\"1\"\n"),
    ("@x = global i8 1", "@x = global i8 1\n"),
    (
        "@x = internal dso_local unnamed_addr addrspace(2) constant i32 0, align 4, !a !0, !b !1",
        "@x = internal addrspace(2) constant i32 0, align 4\n",
    ),
    (
        "@y = private addrspace ( 1 ) constant i32 undef @z = addrspace(2) global i8 0",
        "@y = private addrspace(1) global i32 undef\n@z = addrspace(2) constant i8 0\n",
    ),
    ("declare void @f()", "declare spir_func void @f()\n"),
    (
        "declare dso_local zeroext i8 @\"f\"(i8 zeroext, i32*align 4%p)local_unnamed_addr nounwind #3",
        "declare spir_func zeroext i8 @f(i8 zeroext, i32* align 4 %p)\n",
    ),
    (
        "!opencl.ocl.version=!{!0,!01} !1=distinct!{}",
        "!opencl.ocl.version = !{!0, !1}\n!1 = !{}\n",
    ),
    ("!opencl.ocl.version = !{}", ""),
    (
        "!0 = !{!2,!\"a\\22b\",null,i8 7,i8*@g,!\"\"}",
        "!0 = !{!2, !\"a\\22b\", null, i8 7, i8* @g, !\"\"}\n",
    ),
    // each kind of item behind another
    (
        "!0 = !{} declare void @f() define void @g() { ret void } @x = global i8 1 %T = type i8 target triple = \"a\" !opencl.ocl.version = !{!0} define void @h() { ret void } @y = global i8 2",
        "target triple = \"a\"\n%T = type i8\n@x = global i8 1\n@y = global i8 2\ndefine spir_func void @g() {\n0:\n  ret void\n}\ndefine spir_func void @h() {\n0:\n  ret void\n}\ndeclare spir_func void @f()\n!opencl.ocl.version = !{!0}\n!0 = !{}\n",
    ),
];

#[test]
fn items_are_printed(rt: HostRuntime) -> Result<(), Fail> {
    let wrong = misprinted(rt.alloc(), &ROWS)?;
    assert!(rt; wrong.is_none(), "{wrong:?}");
    Ok(())
}
