use super::printed;
use std::alloc::Global;
use std::test::Fail;

/// A function of 540,000 instructions, each with a name of its own, as it is printed.
fn long_function(alloc: Global) -> Result<String, Fail> {
    let mut text = "define spir_func void @f(i32 %v0) {\n0:\n".to_string(alloc)?;
    for i in 0..540_000 {
        let inst = format!(in alloc; "  %v{i} = add i32 %v{i}, 1\n")?;
        text.push_str(&inst)?;
    }
    text.push_str("  ret void\n}\n")?;
    Ok(text)
}

/// A constant of 640,001 numbers.
fn long_array(alloc: Global) -> Result<String, Fail> {
    let mut text = "@x = global [640001 x i64] [".to_string(alloc)?;
    for _ in 0..640_000 {
        text.push_str("i64 -9223372036854775807, ")?;
    }
    text.push_str("i64 0]\n")?;
    Ok(text)
}

fn is_printed_as_itself(alloc: Global, text: &str) -> Result<bool, Fail> {
    let again = printed(alloc, text)?;
    Ok(again.as_slice() == text.as_bytes())
}

#[test]
fn a_long_function_is_printed(rt: HostRuntime) -> Result<(), Fail> {
    let text = long_function(rt.alloc())?;
    let is_same = is_printed_as_itself(rt.alloc(), &text)?;
    assert!(rt; is_same);
    Ok(())
}

#[test]
fn a_long_constant_is_printed(rt: HostRuntime) -> Result<(), Fail> {
    let text = long_array(rt.alloc())?;
    let is_same = is_printed_as_itself(rt.alloc(), &text)?;
    assert!(rt; is_same);
    Ok(())
}
