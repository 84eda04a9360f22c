use super::{Outcome, outcome_of};
use std::alloc::Global;
use std::test::Fail;

/// A text with nested brackets: what stands before them, what opens one, what stands inside them all, what closes one, and the
/// byte of the first bracket that is too deep where there are 101.
struct Nest {
    before: &'static str,
    open: &'static str,
    inside: &'static str,
    close: &'static str,
    deep: u64,
}

static NESTS: [Nest; 8] = [
    // 10 bytes, and 100 times 5
    Nest {
        before: "%T = type ",
        open: "[1 x ",
        inside: "i8",
        close: "]",
        deep: 510,
    },
    Nest {
        before: "%T = type ",
        open: "<1 x ",
        inside: "i8*",
        close: ">",
        deep: 510,
    },
    Nest {
        before: "%T = type ",
        open: "{",
        inside: "",
        close: "}",
        deep: 110,
    },
    // the `<` isn't counted: 10 bytes, 100 times 2, and 1
    Nest {
        before: "%T = type ",
        open: "<{",
        inside: "i8",
        close: "}>",
        deep: 211,
    },
    // 15 bytes, and 100 times 4
    Nest {
        before: "@x = global i8 ",
        open: "[i8 ",
        inside: "1",
        close: "]",
        deep: 415,
    },
    // 15 bytes, 100 times 5, and 1
    Nest {
        before: "@x = global i8 ",
        open: "<{i8 ",
        inside: "1",
        close: "}>",
        deep: 516,
    },
    // 16 bytes, 100 times 13, and 8 up to the parenthesis
    Nest {
        before: "@x = global i64 ",
        open: "ptrtoint(i64 ",
        inside: "1",
        close: " to i64)",
        deep: 1324,
    },
    // between the braces of a group brackets are tokens as any other
    Nest {
        before: "attributes #0 = { [[[[[[[[ } %T = type ",
        open: "{",
        inside: "",
        close: "}",
        deep: 139,
    },
];

fn nested(alloc: Global, nest: &Nest, depth: usize) -> Result<String, Fail> {
    let mut text = nest.before.to_string(alloc)?;
    repeat(&mut text, nest.open, depth)?;
    text.push_str(nest.inside)?;
    repeat(&mut text, nest.close, depth)?;
    Ok(text)
}

pub(super) fn repeat(text: &mut String, part: &str, times: usize) -> Result<(), Fail> {
    for _ in 0..times {
        text.push_str(part)?;
    }
    Ok(())
}

#[test]
fn brackets_are_nested_100_deep(rt: HostRuntime) -> Result<(), Fail> {
    let alloc = rt.alloc();
    for nest in NESTS.iter() {
        let deepest = nested(alloc, nest, 100)?;
        assert_eq!(rt; outcome_of(alloc, &deepest), Outcome::Module, "{deepest}");
        let too_deep = nested(alloc, nest, 101)?;
        let refused = Outcome::Refused(5, nest.deep);
        assert_eq!(rt; outcome_of(alloc, &too_deep), refused, "{too_deep}");
    }
    Ok(())
}
