use super::printed;
use std::alloc::Global;
use std::test::Fail;

/// Instructions as they may be written, and as they are printed.
static ROWS: [(&str, &str); 37] = [
    ("%r = add nuw nsw i32 %a , 1", "%r = add nuw nsw i32 %a, 1"),
    ("%r = sub nsw i32 %a, -1", "%r = sub nsw i32 %a, -1"),
    ("%r = udiv exact i8 %a, %b", "%r = udiv exact i8 %a, %b"),
    (
        "%r = ashr <2 x i8> %a, <i8 1, i8 2>",
        "%r = ashr <2 x i8> %a, <i8 1, i8 2>",
    ),
    ("%r = xor i1 %a, true", "%r = xor i1 %a, true"),
    ("%r = icmp ult i8 %a, %b", "%r = icmp ult i8 %a, %b"),
    ("%r = icmp ne i8* %a, null", "%r = icmp ne i8* %a, null"),
    (
        "%r = select i1 %c, i8 %a, i8 %b",
        "%r = select i1 %c, i8 %a, i8 %b",
    ),
    ("%r = zext i8 %a to i32", "%r = zext i8 %a to i32"),
    (
        "%r = addrspacecast i8 addrspace(1)* %a to i8 addrspace( 4 )*",
        "%r = addrspacecast i8 addrspace(1)* %a to i8 addrspace(4)*",
    ),
    (
        "%r = phi i8[%a,%x],[1,%y]",
        "%r = phi i8 [ %a, %x ], [ 1, %y ]",
    ),
    ("%r = alloca i8", "%r = alloca i8"),
    (
        "%r = alloca i8, i32 4, align 16",
        "%r = alloca i8, i32 4, align 16",
    ),
    ("%r = load i8, i8* %p", "%r = load i8, i8* %p"),
    (
        "%r = load volatile i8, i8* %p, align 1",
        "%r = load volatile i8, i8* %p, align 1",
    ),
    ("store i8 %a, i8* %p", "store i8 %a, i8* %p"),
    (
        "store volatile i8 %a, i8* %p, align 1",
        "store volatile i8 %a, i8* %p, align 1",
    ),
    (
        "%r = load atomic i8, i8* %p acquire, align 1",
        "%r = load atomic i8, i8* %p acquire, align 1",
    ),
    (
        "store atomic i8 %a, i8* %p syncscope(\"work_item\") release, align 1",
        "store atomic i8 %a, i8* %p syncscope(\"work_item\") release, align 1",
    ),
    (
        "%r = cmpxchg i8* %p, i8 %a, i8 %b acq_rel monotonic",
        "%r = cmpxchg i8* %p, i8 %a, i8 %b acq_rel monotonic",
    ),
    (
        "%r = cmpxchg i8* %p, i8 %a, i8 %b syncscope(\"\\22\") seq_cst acquire, align 4",
        "%r = cmpxchg i8* %p, i8 %a, i8 %b syncscope(\"\\22\") seq_cst acquire, align 4",
    ),
    (
        "%r = atomicrmw umax i8* %p, i8 %a monotonic",
        "%r = atomicrmw umax i8* %p, i8 %a monotonic",
    ),
    (
        "%r = atomicrmw xchg i8* %p, i8 %a syncscope(\"device\") seq_cst, align 4",
        "%r = atomicrmw xchg i8* %p, i8 %a syncscope(\"device\") seq_cst, align 4",
    ),
    ("fence release", "fence release"),
    (
        "fence syncscope(\"sub_group\") acq_rel",
        "fence syncscope(\"sub_group\") acq_rel",
    ),
    (
        "%r = getelementptr i8, i8* %p, i64 1",
        "%r = getelementptr i8, i8* %p, i64 1",
    ),
    (
        "%r = getelementptr inbounds %T, %T* %p, i64 0, i32 1",
        "%r = getelementptr inbounds %T, %T* %p, i64 0, i32 1",
    ),
    (
        "%r = extractelement <2 x i8> %a, i32 1",
        "%r = extractelement <2 x i8> %a, i32 1",
    ),
    (
        "%r = insertelement <2 x i8> %a, i8 %b, i32 %i",
        "%r = insertelement <2 x i8> %a, i8 %b, i32 %i",
    ),
    (
        "%r = shufflevector <2 x i8> %a, <2 x i8> %b, <2 x i32> <i32 3, i32 undef>",
        "%r = shufflevector <2 x i8> %a, <2 x i8> %b, <2 x i32> <i32 3, i32 undef>",
    ),
    (
        "%r = extractvalue { i8, i1 } %a, 1",
        "%r = extractvalue { i8, i1 } %a, 1",
    ),
    (
        "%r = call i8 @f(i8 %a, i8 2)",
        "%r = call spir_func i8 @f(i8 %a, i8 2)",
    ),
    ("ret i8 %a x: ret void", "ret i8 %a\nx:\n  ret void"),
    (
        "br label %x x: unreachable y: ret void",
        "br label %x\nx:\n  unreachable\ny:\n  ret void",
    ),
    (
        "br i1 %c, label %x, label %y z: ret void",
        "br i1 %c, label %x, label %y\nz:\n  ret void",
    ),
    (
        "switch i8 %a, label %x [] y: ret void",
        "switch i8 %a, label %x [ ]\ny:\n  ret void",
    ),
    (
        "switch i8 %a, label %x [i8 1, label %y i8 -2, label %z] y: ret void",
        "switch i8 %a, label %x [ i8 1, label %y i8 -2, label %z ]\ny:\n  ret void",
    ),
];

/// The text of a function with the instruction of a row in it.
fn framed(alloc: Global, before: &str, inst: &str, behind: &str) -> Result<String, Fail> {
    Ok(format!(in alloc; "{before}{inst}{behind}")?)
}

/// The first row that isn't printed as it should be, or as itself once it is printed.
fn misprinted_row(alloc: Global) -> Result<Option<&'static str>, Fail> {
    for (inst, wanted) in ROWS.iter() {
        let end = if inst.ends_with("ret void") {
            ""
        } else {
            " ret void"
        };
        let text = framed(alloc, "define void @f() { s: ", inst, end)?;
        let line = if inst.ends_with("ret void") {
            ""
        } else {
            "\n  ret void"
        };
        let whole = framed(alloc, "define spir_func void @f() {\ns:\n  ", wanted, line)?;
        let given = framed(alloc, &text, " ", "}")?;
        let sought = framed(alloc, &whole, "\n", "}\n")?;
        let first = printed(alloc, &given)?;
        let again = printed(alloc, &sought)?;
        if first.as_slice() != sought.as_bytes() || again.as_slice() != sought.as_bytes() {
            return Ok(Some(*inst));
        }
    }
    Ok(None)
}

#[test]
fn operations_are_printed(rt: HostRuntime) -> Result<(), Fail> {
    let wrong = misprinted_row(rt.alloc())?;
    assert_eq!(rt; wrong, None);
    Ok(())
}
