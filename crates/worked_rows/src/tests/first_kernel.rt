use super::{little, translate};
use kt_driver::Status;
use std::alloc::Global;
use std::test::Fail;

/// The words of the module of a kernel that only returns.
pub(super) const RETURNS: [u32; 30] = [
    0x0723_0203,
    0x0001_0200,
    0,
    5,
    0,
    0x0002_0011,
    4,
    0x0002_0011,
    6,
    0x0003_000E,
    2,
    2,
    0x0004_000F,
    6,
    3,
    0x6B,
    0x0002_0013,
    1,
    0x0003_0021,
    2,
    1,
    0x0005_0036,
    1,
    3,
    0,
    2,
    0x0002_00F8,
    4,
    0x0001_00FD,
    0x0001_0038,
];

/// The words of the module of a kernel that adds its second argument to where its first one points.
pub(super) const ADDS: [u32; 62] = [
    0x0723_0203,
    0x0001_0200,
    0,
    0xB,
    0,
    0x0002_0011,
    4,
    0x0002_0011,
    6,
    0x0003_000E,
    2,
    2,
    0x0004_000F,
    6,
    5,
    0x61,
    0x0002_0013,
    1,
    0x0004_0015,
    2,
    0x20,
    0,
    0x0004_0020,
    3,
    5,
    2,
    0x0005_0021,
    4,
    1,
    3,
    2,
    0x0005_0036,
    1,
    5,
    0,
    4,
    0x0003_0037,
    3,
    6,
    0x0003_0037,
    2,
    7,
    0x0002_00F8,
    8,
    0x0006_003D,
    2,
    9,
    6,
    2,
    4,
    0x0005_0080,
    2,
    0xA,
    9,
    7,
    0x0005_003E,
    6,
    0xA,
    2,
    4,
    0x0001_00FD,
    0x0001_0038,
];

#[test]
fn a_kernel_that_returns(rt: HostRuntime) -> Result<(), Fail> {
    let texts: [&[u8]; 5] = [
        b"define spir_kernel void @k() { ret void }",
        b"define spir_kernel void@k(){ret void}",
        b"define spir_kernel void @k() {\n0:\n  ret void\n}\n",
        b"define spir_kernel void @k() { entry: ret void }",
        b"; a comment with \" and %\r\n\tdefine spir_kernel\nvoid @k ( ) { ret ;\n void } ;",
    ];
    let words = little(rt.alloc(), &RETURNS)?;
    for text in texts {
        let ran = translate(rt.alloc(), text)?;
        assert_eq!(rt; ran.status, Status::Ok);
        assert_eq!(rt; ran.out.as_slice(), words.as_slice());
        assert_eq!(rt; ran.err.as_slice().len(), 0);
    }
    Ok(())
}

#[test]
fn a_kernel_that_adds(rt: HostRuntime) -> Result<(), Fail> {
    let texts: [&[u8]; 5] = [
        b"define spir_kernel void @a(i32 addrspace(1)* %p, i32 %x) {\n  %v = load i32, i32 addrspace(1)* %p\n  %s = add i32 %v, %x\n  store i32 %s, i32 addrspace(1)* %p\n  ret void\n}\n",
        // The names of values leave no trace. The block takes the number behind the parameters'.
        b"define spir_kernel void @a(i32 addrspace(1)* %0, i32 %01) { %3 = load i32, i32 addrspace(1)* %0 %4 = add i32 %3, %1 store i32 %4, i32 addrspace(1)* %0 ret void }",
        b"define spir_kernel void @a(i32 addrspace(1)* %-p.$_, i32 %x) { %1=load i32,i32 addrspace(1)*%-p.$_ %2=add i32 %1,%x store i32%2,i32 addrspace(1)*%-p.$_ ret void}",
        // The canonical form, and a text that has it in part.
        b"target datalayout = \"e-i64:64-v16:16-v24:32-v32:32-v48:64-v96:128-v192:256-v256:256-v512:512-v1024:1024\"\ntarget triple = \"spir64-unknown-unknown\"\ndefine spir_kernel void @a(i32 addrspace(1)* %0, i32 %1) {\n2:\n  %3 = load i32, i32 addrspace(1)* %0, align 4\n  %4 = add i32 %3, %1\n  store i32 %4, i32 addrspace(1)* %0, align 4\n  ret void\n}\n",
        b"define spir_kernel void @a(i32 addrspace(1)* %p, i32 %x) { b: %0 = load i32, i32 addrspace(1)* %p, align 4 %1 = add i32 %0, %x store i32 %1, i32 addrspace(1)* %p ret void }",
    ];
    let words = little(rt.alloc(), &ADDS)?;
    for text in texts {
        let ran = translate(rt.alloc(), text)?;
        assert_eq!(rt; ran.status, Status::Ok);
        assert_eq!(rt; ran.out.as_slice(), words.as_slice());
    }
    Ok(())
}

/// Translates a text that is refused, and says whether this is the line that tells it.
fn is_refused_by(alloc: Global, text: &[u8], line: &str) -> Result<bool, Fail> {
    let ran = translate(alloc, text)?;
    let is_told = ran.err.as_slice() == line.as_bytes();
    Ok(ran.status == Status::Refused && is_told && ran.out.as_slice().is_empty())
}

#[test]
fn a_name_that_is_defined_nowhere(rt: HostRuntime) -> Result<(), Fail> {
    let cases: [(&[u8], &str); 4] = [
        (
            b"define spir_kernel void @k() { %s = add i32 %y, %y ret void }",
            "refused: rule L20 at byte 44\n",
        ),
        (
            b"define spir_kernel void @k(i32 %x) { %s = add i32 %x, %y ret void }",
            "refused: rule L20 at byte 54\n",
        ),
        // The name is told although another rule is broken above it.
        (
            b"define spir_kernel void @k(i32 %x, i32 %x) { %x = add i32 %z, %x ret void }",
            "refused: rule L20 at byte 58\n",
        ),
        // A name that is defined below its use is defined somewhere.
        (
            b"define spir_kernel void @k(i32 %x) { %s = add i32 %t, %x %t = add i32 %u, %x ret void }",
            "refused: rule L20 at byte 70\n",
        ),
    ];
    for (text, line) in cases {
        let is_refused = is_refused_by(rt.alloc(), text, line)?;
        assert!(rt; is_refused, "{line}");
    }
    Ok(())
}

#[test]
fn texts_outside_the_subset(rt: HostRuntime) -> Result<(), Fail> {
    let texts: [&[u8]; 29] = [
        b"",
        b"; only a comment",
        b"define void @k() { ret void }",
        b"define spir_func void @k() { ret void }",
        b"define spir_kernel i32 @k() { ret void }",
        b"define spir_kernel void @_Zk() { ret void }",
        b"define spir_kernel void @0() { ret void }",
        b"define spir_kernel void @\"k\"() { ret void }",
        b"define spir_kernel void @k() { \"entry\": ret void }",
        b"define spir_kernel void @k() { 1: ret void }",
        b"define spir_kernel void @k(i32 %x) { x: ret void }",
        b"define spir_kernel void @k(i32 %x) { b: %s = add i32 %b, %x ret void }",
        b"target triple = \"spir64-unknown-unknown\" define spir_kernel void @k() { ret void }",
        b"define spir_kernel void @k(i32 addrspace(1)* %p) { %v = load i32, i32 addrspace(1)* %p, align 8 ret void }",
        b"define spir_kernel void @k(i32) { ret void }",
        b"define spir_kernel void @k(i64 %x) { ret void }",
        b"define spir_kernel void @k(i32* %x) { ret void }",
        b"define spir_kernel void @k(i32 addrspace(2)* %x) { ret void }",
        b"define spir_kernel void @k(i32 %x, i32 %x) { ret void }",
        b"define spir_kernel void @k(i32 %1) { ret void }",
        b"define spir_kernel void @k(i32 %0) { %1 = add i32 %0, %0 ret void }",
        b"define spir_kernel void @k(i32 %x) { %s = add nsw i32 %x, %x ret void }",
        b"define spir_kernel void @k(i32 %x) { %s = sub i32 %x, %x ret void }",
        b"define spir_kernel void @k(i32 %x) { add i32 %x, %x ret void }",
        b"define spir_kernel void @k(i32 %x) { %x = add i32 %x, %x ret void }",
        b"define spir_kernel void @k(i32 %x) { %s = add i32 %s, %x ret void }",
        b"define spir_kernel void @k(i32 %x) { %s = add i32 %t, %x %t = add i32 %x, %x ret void }",
        b"define spir_kernel void @k(i32 %x) { %s = load i32, i32 addrspace(1)* %x ret void }",
        b"define spir_kernel void @k(i32 addrspace(1)* %p) { store i32 %p, i32 addrspace(1)* %p ret void }",
    ];
    for text in texts {
        let is_refused = is_refused_by(rt.alloc(), text, "refused: rule L90 at byte 0\n")?;
        assert!(rt; is_refused, "{text:?}");
    }
    Ok(())
}

#[test]
fn texts_that_are_no_modules(rt: HostRuntime) -> Result<(), Fail> {
    let cases: [(&[u8], &str); 11] = [
        (b"\xFF", "refused: rule L1 at byte 0\n"),
        (
            b"define spir_kernel void @k() { ret void } ; \xC3",
            "refused: rule L1 at byte 44\n",
        ),
        (
            b"define spir_kernel void @k() { ret }",
            "refused: rule L3 at byte 35\n",
        ),
        (
            b"define spir_kernel void @k() { ret void ",
            "refused: rule L3 at byte 40\n",
        ),
        (
            b"define spir_kernel void @k() { ret void } }",
            "refused: rule L3 at byte 42\n",
        ),
        (
            b"define spir_kernel void @k(i32 %x) { store i32 %2147483648, i32 addrspace(1)* %q ret void }",
            "refused: rule L4 at byte 47\n",
        ),
        (
            b"define spir_kernel void @k(i32 %x,) { ret void }",
            "refused: rule L3 at byte 34\n",
        ),
        (
            b"define spir_kernel void @k(i8 %x) { %s = add i8 %x, 256 ret void }",
            "refused: rule L4 at byte 52\n",
        ),
        // A rule of the grammar is told before an undefined name above it.
        (
            b"define spir_kernel void @k() { %s = add i32 %y, %y ret }",
            "refused: rule L3 at byte 55\n",
        ),
        // What stands before the place where no token begins is looked at first.
        (b"%T = type ] %", "refused: rule L3 at byte 10\n"),
        (b"%T = type i32 %", "refused: rule L2 at byte 14\n"),
    ];
    for (text, line) in cases {
        let is_refused = is_refused_by(rt.alloc(), text, line)?;
        assert!(rt; is_refused, "{line}");
    }
    Ok(())
}

/// How many bytes of the smallest kernel's text are given, and what is told of them.
static CUT: [(usize, &str); 6] = [
    (3, "refused: rule L3 at byte 0\n"),
    (6, "refused: rule L3 at byte 6\n"),
    (25, "refused: rule L2 at byte 24\n"),
    (26, "refused: rule L3 at byte 26\n"),
    (33, "refused: rule L3 at byte 31\n"),
    (40, "refused: rule L3 at byte 40\n"),
];

#[test]
fn a_text_that_is_cut(rt: HostRuntime) -> Result<(), Fail> {
    let kernel = b"define spir_kernel void @k() { ret void }";
    for (len, line) in CUT.iter() {
        let front = &kernel[..kernel.len().min(*len)];
        let is_refused = is_refused_by(rt.alloc(), front, line)?;
        assert!(rt; is_refused, "{line}");
    }
    Ok(())
}

/// A struct type whose arrays are nested this deep, cut behind their counts.
fn nested_arrays(alloc: Global, depth: usize) -> Result<Vec<u8>, Fail> {
    let mut text = Vec::from_slice(alloc, b"%T = type ")?;
    for _ in 0..depth {
        text.extend_from_slice(b"[1 x ")?;
    }
    Ok(text)
}

#[test]
fn brackets_that_are_nested_too_deep(rt: HostRuntime) -> Result<(), Fail> {
    let alloc = rt.alloc();
    let text = nested_arrays(alloc, 101)?;
    let is_refused = is_refused_by(alloc, &text, "refused: rule L5 at byte 510\n")?;
    assert!(rt; is_refused);
    // Without the last one the text ends too early.
    let text = nested_arrays(alloc, 100)?;
    let is_refused = is_refused_by(alloc, &text, "refused: rule L3 at byte 510\n")?;
    assert!(rt; is_refused);
    Ok(())
}

/// The text of a kernel with this many parameters.
fn kernel_of_parameters(alloc: Global, count: usize) -> Result<Vec<u8>, Fail> {
    let mut text = Vec::from_slice(alloc, b"define spir_kernel void @k(i32 %p0")?;
    for i in 1..count {
        let parameter = format!(in alloc; ", i32 %p{i}")?;
        text.extend_from_slice(parameter.as_bytes())?;
    }
    text.extend_from_slice(b") { ret void }")?;
    Ok(text)
}

#[test]
fn as_many_parameters_as_there_may_be(rt: HostRuntime) -> Result<(), Fail> {
    let many = kernel_of_parameters(rt.alloc(), 255)?;
    let ran = translate(rt.alloc(), &many)?;
    // The sinks have no room for such a module.
    assert_eq!(rt; ran.status, Status::WriteFault);
    assert_eq!(rt; ran.out.as_slice().len(), 1000);
    let too_many = kernel_of_parameters(rt.alloc(), 256)?;
    let is_refused = is_refused_by(rt.alloc(), &too_many, "refused: rule L90 at byte 0\n")?;
    assert!(rt; is_refused);
    Ok(())
}

/// A text with blanks behind it, up to this many bytes.
fn padded(alloc: Global, text: &[u8], len: usize) -> Result<Vec<u8>, Fail> {
    let mut padded = Vec::from_slice(alloc, text)?;
    for _ in text.len()..len {
        padded.push(b' ')?;
    }
    Ok(padded)
}

#[test]
fn as_long_an_input_as_there_may_be(rt: HostRuntime) -> Result<(), Fail> {
    let alloc = rt.alloc();
    let kernel = b"define spir_kernel void @k() { ret void }";
    let mut text = padded(alloc, kernel, 16_777_216)?;
    let longest = translate(alloc, &text)?;
    assert_eq!(rt; longest.status, Status::Ok);
    assert_eq!(rt; longest.out.as_slice().len(), 120);
    text.push(b' ')?;
    let is_refused = is_refused_by(alloc, &text, "refused: rule L15 at byte 16777216\n")?;
    assert!(rt; is_refused);
    Ok(())
}

#[test]
fn a_name_that_no_instruction_holds(rt: HostRuntime) -> Result<(), Fail> {
    let alloc = rt.alloc();
    let mut text = Vec::from_slice(alloc, b"define spir_kernel void @")?;
    for _ in 0..4 * 65_532 {
        text.push(b'k')?;
    }
    text.extend_from_slice(b"() { ret void }")?;
    let is_refused = is_refused_by(alloc, &text, "refused: rule L90 at byte 0\n")?;
    assert!(rt; is_refused);
    Ok(())
}
