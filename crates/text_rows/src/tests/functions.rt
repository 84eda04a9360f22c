use super::{Frame, wrong_text};
use std::test::Fail;

/// The head of a function that is defined.
const DEFINITION: Frame = Frame {
    before: "define ",
    behind: "{ ret void }",
    may_end: false,
};

/// The head of one that is declared, at whose attributes the text may end.
const DECLARATION: Frame = Frame {
    before: "declare ",
    behind: "",
    may_end: true,
};

/// Heads of functions (LLVM 14, Functions; Parameter Attributes; Function Attributes).
static HEADS: [&str; 52] = [
    "void @f ( )",
    "internal void @f ( )",
    "private dso_local spir_kernel void @f ( )",
    "dso_local spir_func void @f ( )",
    "spir_kernel void @7 ( )",
    "zeroext i8 @f ( )",
    "spir_func signext noundef i32 * @\"f\" ( )",
    "void @f ( i8 )",
    "void @f ( i8 %x )",
    "void @f ( i8 , i8 %7 , i8 )",
    "void @f ( i8 zeroext %\"x\" , i8 * byval ( i8 ) align 4 )",
    "void @f ( i8 zeroext %x )",
    "void @f ( i8 signext %x )",
    "void @f ( i8 noalias %x )",
    "void @f ( i8 nocapture %x )",
    "void @f ( i8 readonly %x )",
    "void @f ( i8 readnone %x )",
    "void @f ( i8 writeonly %x )",
    "void @f ( i8 noundef %x )",
    "void @f ( i8 nonnull %x )",
    "void @f ( i8 inreg %x )",
    "void @f ( i8 returned %x )",
    "void @f ( i8 nofree %x )",
    "void @f ( i8 immarg %x )",
    "void @f ( i8 byval %x )",
    "void @f ( i8 byval ( { i8 } * ) %x )",
    "void @f ( i8 sret %x )",
    "void @f ( i8 sret ( i8 ) %x )",
    "void @f ( i8 align 9223372036854775807 %x )",
    "void @f ( i8 dereferenceable ( 4 ) %x )",
    "void @f ( i8 dereferenceable_or_null ( 9223372036854775807 ) %x )",
    "void @f ( ) unnamed_addr",
    "void @f ( ) local_unnamed_addr nounwind",
    "void @f ( ) nounwind",
    "void @f ( ) convergent",
    "void @f ( ) norecurse",
    "void @f ( ) noinline",
    "void @f ( ) alwaysinline",
    "void @f ( ) optnone",
    "void @f ( ) readnone",
    "void @f ( ) readonly",
    "void @f ( ) argmemonly",
    "void @f ( ) willreturn",
    "void @f ( ) mustprogress",
    "void @f ( ) nofree",
    "void @f ( ) nosync",
    "void @f ( ) uwtable",
    "void @f ( ) speculatable",
    "void @f ( ) #0",
    "void @f ( ) #2147483647",
    "void @f ( ) \"a\"",
    "void @f ( ) \"a\" = \"b\" #3 \"c\" nounwind #3",
];

/// Heads with attachments, which a declared function hasn't (LLVM 14, Metadata).
static ATTACHED: [&str; 2] = [
    "void @f ( ) !a !0",
    "void @f ( ) nounwind !kernel_arg_type !2147483647 !kernel_arg_type !1 !x !1",
];

#[test]
fn heads_are_read(rt: HostRuntime) -> Result<(), Fail> {
    let alloc = rt.alloc();
    for row in HEADS.iter() {
        let defined = wrong_text(alloc, DEFINITION, row)?;
        assert!(rt; defined.is_none(), "{row}: {defined:?}");
        let declared = wrong_text(alloc, DECLARATION, row)?;
        assert!(rt; declared.is_none(), "{row}: {declared:?}");
    }
    for row in ATTACHED.iter() {
        let wrong = wrong_text(alloc, DEFINITION, row)?;
        assert!(rt; wrong.is_none(), "{row}: {wrong:?}");
    }
    Ok(())
}
