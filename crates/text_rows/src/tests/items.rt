use super::{Frame, Outcome, outcome_of, wrong_text};
use std::test::Fail;

/// Items stand in no frame, and the text may end behind any of them.
const ITEMS: Frame = Frame {
    before: "",
    behind: "",
    may_end: true,
};

/// Items (LLVM 14, Module Structure).
static ROWS: [&str; 20] = [
    "target triple = \"spir64-unknown-unknown\"",
    "target datalayout = \"\"",
    "source_filename = \"k.cl\"",
    "%T = type i8",
    "%7 = type { i8 , %7 * }",
    "@x = global i8 1",
    "@x = constant i8 undef",
    "@x = internal global i8 1",
    "@7 = private dso_local unnamed_addr addrspace ( 3 ) constant [ 2 x i8 ] c\"ab\" , align 4 , !a !0 , !b !1",
    "@\"x\" = dso_local local_unnamed_addr global i8 1 , align 1",
    "@x = addrspace ( 1 ) global i8 * @x , !a !0",
    "declare void @f ( )",
    "define void @f ( ) { ret void }",
    "!a = ! { }",
    "!llvm.ident = ! { !0 , !2147483647 }",
    "!opencl.ocl.version = ! { !0 }",
    "!0 = ! { }",
    "!007 = distinct ! { }",
    "!2147483647 = ! { !0 , !\"a\" , null , i8 7 , i8 * @g }",
    "%T = type i8 @x = global i8 1 !0 = ! { } %U = type %T * declare void @f ( ) !a = ! { !0 } define void @f ( ) { ret void } target triple = \"a\" @y = global i8 2",
];

/// Texts of modules that say nothing, have groups of attributes, in which each token but a brace may stand, or have no blank more
/// than they need.
static WHOLE: [&str; 8] = [
    "",
    "  \x09\x0d\n",
    "; nothing but a comment",
    "attributes #0 = { }",
    "attributes #2147483647 = { nounwind odd ( [ ( < \"a\"=\"b\" , !0 7 }",
    "%T=type{i8,[2 x i8]*}; a comment\n@x=global i8 1,align 1!0=!{!\"a b\",null}",
    "define spir_kernel void@k(i32 addrspace(1)*%p,i32%x){%v=load i32,i32 addrspace(1)*%p,align 4 %s=add nsw i32%v,%x store i32%s,i32 addrspace(1)*%p br label%e e:ret void}",
    "source_filename = \"; no comment\" target triple = \"a\\22b\\\\\"",
];

#[test]
fn items_are_read(rt: HostRuntime) -> Result<(), Fail> {
    let alloc = rt.alloc();
    for row in ROWS.iter() {
        let wrong = wrong_text(alloc, ITEMS, row)?;
        assert!(rt; wrong.is_none(), "{row}: {wrong:?}");
    }
    for text in WHOLE.iter() {
        assert_eq!(rt; outcome_of(alloc, text), Outcome::Module, "{text}");
    }
    Ok(())
}
