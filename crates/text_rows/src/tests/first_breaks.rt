use super::depths::repeat;
use super::{Outcome, outcome_of};
use std::test::Fail;

/// Texts that break two rules, up to the place where the first one is broken, which is told, and from there on.
static PAIRS: [(u16, &str, &str); 19] = [
    (2, "", "& odd"),
    (3, "", "odd &"),
    (2, "%T = type ", "& ]"),
    (3, "%T = type ", "] &"),
    (4, "%T = type [", "-1 y i8]"),
    (3, "%T = type [", "y -1]"),
    (4, "@x = global i8 ", "256 odd"),
    (3, "@x = global i8 ", "odd 256"),
    (4, "@x = global i8 ", "256 &"),
    (2, "@x = global i8 ", "& 256"),
    (4, "", "!2147483648 = !{ \"a"),
    (2, "", "\"a !2147483648 = !{ "),
    // a text without its second quote leaves the mark before it, which can't stand there
    (3, "@x = global [1 x i8] ", "c\"ab"),
    (3, "", "!\"ab"),
    // the tokens end early, but the text doesn't
    (2, "define ", "&"),
    (2, "define void @f() { ret ", "%"),
    // blanks and comments are of the text
    (3, "define ", ""),
    (3, "define ; the end\n ", ""),
    (3, "define void @f() { \x09\x0d\n", ""),
];

/// The same with brackets that are nested too deep: what stands before `[1 x `, how often that stands there, what stands behind
/// it, and the rule and the byte that are told.
static DEEP: [(&str, usize, &str, u16, u64); 9] = [
    ("%T = type ", 101, "", 5, 510),
    ("%T = type ", 101, "]", 5, 510),
    ("%T = type ", 101, "&", 5, 510),
    ("%T = type ", 100, "[-1 x i8", 5, 510),
    ("] %T = type ", 101, "", 3, 0),
    ("& %T = type ", 101, "", 2, 0),
    ("%T = type [-1 x ", 100, "", 4, 11),
    ("%T = type ", 100, "& [", 2, 510),
    // of two rules that are broken at one byte the one with the least number is told
    ("%T = type ", 100, "(", 3, 510),
];

#[test]
fn the_first_break_is_told(rt: HostRuntime) -> Result<(), Fail> {
    let alloc = rt.alloc();
    for (rule, before, from) in PAIRS.iter() {
        let text = format!(in alloc; "{before}{from}")?;
        let told = Outcome::Refused(*rule, before.len() as u64);
        assert_eq!(rt; outcome_of(alloc, &text), told, "{text}");
    }
    for (before, times, behind, rule, byte) in DEEP.iter() {
        let mut text = before.to_string(alloc)?;
        repeat(&mut text, "[1 x ", *times)?;
        text.push_str(behind)?;
        let told = Outcome::Refused(*rule, *byte);
        assert_eq!(rt; outcome_of(alloc, &text), told, "{text}");
    }
    Ok(())
}
