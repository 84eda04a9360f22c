use super::depths::repeat;
use super::{Outcome, outcome_of};
use std::alloc::Global;
use std::test::Fail;

/// A function of 540,000 instructions, each with a name of its own.
fn long_function(alloc: Global) -> Result<String, Fail> {
    let mut text = "define void @f(i32 %v0) {\n".to_string(alloc)?;
    for i in 0..540_000 {
        let inst = format!(in alloc; "%v{i} = add i32 %v{i}, 1\n")?;
        text.push_str(&inst)?;
    }
    text.push_str("ret void }")?;
    Ok(text)
}

/// A constant of 640,001 numbers.
fn long_array(alloc: Global) -> Result<String, Fail> {
    let mut text = "@x = global [640001 x i64] [".to_string(alloc)?;
    repeat(&mut text, "i64 -9223372036854775807, ", 640_000)?;
    text.push_str("i64 0]")?;
    Ok(text)
}

/// Ten thousand functions, each of which calls itself.
fn many_functions(alloc: Global) -> Result<String, Fail> {
    let mut text = String::new(alloc);
    for i in 0..10_000 {
        let head = format!(in alloc; "define spir_func i32 @f{i}(i32 %x) ")?;
        text.push_str(&head)?;
        let body = format!(in alloc; "{{ %y = call i32 @f{i}(i32 %x) ret i32 %y }}\n")?;
        text.push_str(&body)?;
    }
    Ok(text)
}

/// Ten thousand types and values whose brackets are nested 100 deep.
fn many_nests(alloc: Global) -> Result<String, Fail> {
    let mut text = String::new(alloc);
    for _ in 0..10_000 {
        text.push_str("%T = type ")?;
        repeat(&mut text, "<{ ", 100)?;
        repeat(&mut text, "}>", 100)?;
        text.push_str(" @x = global i8 ")?;
        repeat(&mut text, "<{i8 ", 100)?;
        text.push_str("1")?;
        repeat(&mut text, "}>", 100)?;
        text.push_str("\n")?;
    }
    Ok(text)
}

/// Whether a text is a module's, and is refused at its end where a word stands there that no production has.
fn is_read(alloc: Global, text: &mut String) -> Result<bool, Fail> {
    let is_module = outcome_of(alloc, text) == Outcome::Module;
    let end = text.len() as u64;
    text.push_str("odd")?;
    Ok(is_module && outcome_of(alloc, text) == Outcome::Refused(3, end))
}

#[test]
fn a_function_of_16_mebibytes_is_read(rt: HostRuntime) -> Result<(), Fail> {
    let mut text = long_function(rt.alloc())?;
    let is_read = is_read(rt.alloc(), &mut text)?;
    assert!(rt; is_read);
    Ok(())
}

#[test]
fn a_constant_of_16_mebibytes_is_read(rt: HostRuntime) -> Result<(), Fail> {
    let mut text = long_array(rt.alloc())?;
    let is_read = is_read(rt.alloc(), &mut text)?;
    assert!(rt; is_read);
    Ok(())
}

#[test]
fn ten_thousand_functions_are_read(rt: HostRuntime) -> Result<(), Fail> {
    let mut text = many_functions(rt.alloc())?;
    let is_read = is_read(rt.alloc(), &mut text)?;
    assert!(rt; is_read);
    Ok(())
}

#[test]
fn deep_brackets_are_read(rt: HostRuntime) -> Result<(), Fail> {
    let mut text = many_nests(rt.alloc())?;
    let is_read = is_read(rt.alloc(), &mut text)?;
    assert!(rt; is_read);
    Ok(())
}
