use super::{Frame, wrong_text};
use std::test::Fail;

/// An instruction that is not the last one of its block.
const BODY: Frame = Frame {
    before: "define void @f ( ) { ",
    behind: "ret void }",
    may_end: false,
};

/// Instructions that end no block (LLVM 14, Instruction Reference).
static INSTRUCTIONS: [&str; 80] = [
    "add i8 1 , 2",
    "%x = add nuw i8 %a , %b",
    "%x = sub nsw nuw i8 1 , 2",
    "%7 = mul nuw nsw exact i8 1 , 2",
    "%\"x\" = udiv exact i8 1 , 2",
    "%x = sdiv i8 1 , 2",
    "%x = urem i8 1 , 2",
    "%x = srem i8 1 , 2",
    "%x = shl nuw nuw i8 1 , 2",
    "%x = lshr exact i8 1 , 2",
    "%x = ashr i8 1 , 2",
    "%x = and i8 1 , 2",
    "%x = or < 2 x i8 > %a , zeroinitializer",
    "%x = xor i8 1 , 2",
    "%x = icmp eq i8 1 , 2",
    "%x = icmp ne i8 1 , 2",
    "%x = icmp ugt i8 1 , 2",
    "%x = icmp uge i8 1 , 2",
    "%x = icmp ult i8 1 , 2",
    "%x = icmp ule i8 1 , 2",
    "%x = icmp sgt i8 1 , 2",
    "%x = icmp sge i8 1 , 2",
    "%x = icmp slt i8 1 , 2",
    "%x = icmp sle i8 1 , 2",
    "icmp eq i8 * null , %p",
    "%x = select i1 true , i8 1 , i8 %y",
    "%x = trunc i16 1 to i8",
    "%x = zext i8 %a to i16",
    "%x = sext i8 1 to i16",
    "%x = ptrtoint i8 * @g to i64",
    "%x = inttoptr i64 8 to i8 *",
    "%x = bitcast i8 * @g to i32 *",
    "%x = addrspacecast i8 * @g to i8 addrspace ( 1 ) *",
    "%x = phi i8 [ 1 , %a ]",
    "phi i8 [ %x , %a ] , [ undef , %7 ] , [ 3 , %\"b\" ]",
    "%x = phi i8 [ 1 , %a ] , !a !0",
    "%x = alloca i8",
    "%x = alloca i8 , i32 2",
    "%x = alloca i8 , align 4",
    "alloca [ 2 x i8 ] , i32 2 , align 9223372036854775807 , !a !0",
    "%x = load i8 , i8 * %p",
    "%x = load volatile i8 , i8 * %p , align 1",
    "load i8 , i8 * %p , !a !0 , !b !2147483647",
    "%x = load atomic i8 , i8 * %p seq_cst , align 1",
    "load atomic i8 , i8 * %p syncscope ( \"device\" ) monotonic , align 1 , !a !0",
    "store i8 1 , i8 * %p",
    "store volatile i8 1 , i8 * %p , align 1 , !a !0",
    "store atomic i8 1 , i8 * %p release , align 1",
    "store atomic i8 1 , i8 * %p syncscope ( \"\" ) monotonic , align 1",
    "%x = cmpxchg i8 * %p , i8 1 , i8 2 acq_rel monotonic",
    "cmpxchg i8 * %p , i8 1 , i8 2 syncscope ( \"a\" ) seq_cst acquire , align 1",
    "%x = atomicrmw xchg i8 * %p , i8 1 monotonic",
    "%x = atomicrmw add i8 * %p , i8 1 monotonic",
    "%x = atomicrmw sub i8 * %p , i8 1 monotonic",
    "%x = atomicrmw and i8 * %p , i8 1 monotonic",
    "%x = atomicrmw or i8 * %p , i8 1 monotonic",
    "%x = atomicrmw xor i8 * %p , i8 1 monotonic",
    "%x = atomicrmw max i8 * %p , i8 1 monotonic",
    "%x = atomicrmw min i8 * %p , i8 1 monotonic",
    "%x = atomicrmw umax i8 * %p , i8 1 monotonic",
    "%x = atomicrmw umin i8 * %p , i8 1 monotonic",
    "atomicrmw add i8 * %p , i8 1 syncscope ( \"a\" ) seq_cst , align 1",
    "fence monotonic",
    "fence acquire",
    "fence release",
    "fence acq_rel",
    "fence seq_cst",
    "fence syncscope ( \"workgroup-local\" ) acquire , !a !0",
    "%x = getelementptr i8 , i8 * %p , i64 1",
    "getelementptr inbounds [ 2 x i8 ] , [ 2 x i8 ] * %p , i64 0 , i64 %i , !a !0",
    "%x = extractelement < 2 x i8 > %v , i32 1",
    "%x = insertelement < 2 x i8 > %v , i8 1 , i32 %i",
    "%x = shufflevector < 2 x i8 > %v , < 2 x i8 > undef , < 2 x i32 > < i32 0 , i32 3 >",
    "%x = extractvalue { i8 , i1 } %s , 1",
    "extractvalue { i8 , i1 } %s , 9223372036854775807 , !a !0",
    "call void @f ( )",
    "%x = call void @f ( )",
    "call i8 @f ( i8 1 )",
    "%x = tail call spir_func zeroext noundef i8 @f ( i8 zeroext 1 , i8 * byval ( i8 ) align 4 %p , i8 %y ) nounwind #0 \"a\" \"b\" = \"c\" , !a !0",
    "notail call spir_kernel void @\"f\" ( ) readnone",
];

/// The last instruction of a block, and blocks.
const BLOCK: Frame = Frame {
    before: "define void @f ( ) { ",
    behind: "}",
    may_end: false,
};

/// Instructions that end a block, and blocks (LLVM 14, Terminator Instructions; Functions).
static BLOCKS: [&str; 17] = [
    "ret void",
    "ret i8 1",
    "ret { i8 } { i8 1 }",
    "br label %b",
    "br label %7 , !llvm.loop !3",
    "br i1 %c , label %a , label %\"b\"",
    "switch i8 1 , label %a [ ]",
    "switch i8 %x , label %a [ i8 1 , label %b i8 -2 , label %c ] , !a !0",
    "unreachable",
    "ret void , !a !0 , !b !1",
    "a: ret void",
    "7: ret void",
    "\"a\": unreachable",
    "a.-$: fence seq_cst ret void",
    "a: br label %b b: ret void",
    "br label %1 ret void ret i8 1",
    "br label %b fence seq_cst add i8 1 , 2 ret void",
];

#[test]
fn instructions_are_read(rt: HostRuntime) -> Result<(), Fail> {
    let alloc = rt.alloc();
    for row in INSTRUCTIONS.iter() {
        let wrong = wrong_text(alloc, BODY, row)?;
        assert!(rt; wrong.is_none(), "{row}: {wrong:?}");
    }
    for row in BLOCKS.iter() {
        let wrong = wrong_text(alloc, BLOCK, row)?;
        assert!(rt; wrong.is_none(), "{row}: {wrong:?}");
    }
    Ok(())
}
