use super::misprinted;
use std::test::Fail;

/// Functions as they may be written, and as they are printed.
static ROWS: [(&str, &str); 9] = [
    (
        "define void @f() { ret void }",
        "define spir_func void @f() {\n0:\n  ret void\n}\n",
    ),
    (
        "define internal spir_kernel void @\"k\"(i32 %x,i8*nocapture) unnamed_addr nounwind #0 !kernel_arg_type !1 { e: ret void }",
        "define internal spir_kernel void @k(i32 %x, i8* nocapture %0) !kernel_arg_type !1 {\ne:\n  ret void\n}\n",
    ),
    // the three attachments that are kept, in one order
    (
        "define void @f() !a !1 !work_group_size_hint !2 !reqd_work_group_size !3 !kernel_arg_type !4 !kernel_arg_type !5 { ret void }",
        "define spir_func void @f() !kernel_arg_type !4 !reqd_work_group_size !3 !work_group_size_hint !2 {\n0:\n  ret void\n}\n",
    ),
    // attributes, with numbers and types where they have them
    (
        "define zeroext i8 @f(i8 signext %a, i8* noalias nocapture readonly readnone writeonly noundef nonnull inreg returned nofree immarg %b) { ret i8 0 }",
        "define spir_func zeroext i8 @f(i8 signext %a, i8* noalias nocapture readonly readnone writeonly noundef nonnull inreg returned nofree immarg %b) {\n0:\n  ret i8 0\n}\n",
    ),
    (
        "declare void @f(i8* byval(i8), i8* byval, i8* sret(%T), i8* sret, i8* align 8, i8* dereferenceable(24), i8* dereferenceable_or_null(7))",
        "declare spir_func void @f(i8* byval(i8), i8* byval, i8* sret(%T), i8* sret, i8* align 8, i8* dereferenceable(24), i8* dereferenceable_or_null(7))\n",
    ),
    // what has no name has the next number
    (
        "define i32 @f(i32, i32 %x, i32) { %a = add i32 %0, %1 %3 = add i32 %a, %x br label %4 4: add i32 %3, %3 ret i32 %5 }",
        "define spir_func i32 @f(i32 %0, i32 %x, i32 %1) {\n2:\n  %a = add i32 %0, %1\n  %3 = add i32 %a, %x\n  br label %4\n4:\n  %5 = add i32 %3, %3\n  ret i32 %5\n}\n",
    ),
    // a call gives a value where its type isn't void
    (
        "define void @f() { call void @g() %1 = tail call i8 @h(i8 zeroext 1) call spir_kernel void @g() nounwind, !a !0 ret void }",
        "define spir_func void @f() {\n0:\n  call spir_func void @g()\n  %1 = call spir_func i8 @h(i8 1)\n  call spir_func void @g()\n  ret void\n}\n",
    ),
    // names that stand between quotes
    (
        "define void @\"a b\"(i8 %\"1\", i8 %\"\\00\") { \"x y\": br label %\"z\" z: br label %\"x y\" }",
        "define spir_func void @\"a b\"(i8 %\"1\", i8 %\"\\00\") {\n\"x y\":\n  br label %z\nz:\n  br label %\"x y\"\n}\n",
    ),
    (
        "define void @f() { -1: br label %-1 }",
        "define spir_func void @f() {\n-1:\n  br label %-1\n}\n",
    ),
];

#[test]
fn functions_are_printed(rt: HostRuntime) -> Result<(), Fail> {
    let wrong = misprinted(rt.alloc(), &ROWS)?;
    assert!(rt; wrong.is_none(), "{wrong:?}");
    Ok(())
}
