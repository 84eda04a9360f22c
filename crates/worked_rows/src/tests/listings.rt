use super::run_words;
use kt_driver::Status;
use std::test::Fail;

#[test]
fn the_tokens_of_a_text_are_listed(rt: HostRuntime) -> Result<(), Fail> {
    let cases: [(&[u8], &str); 4] = [
        (
            b"define spir_kernel void @k() { ret void }",
            "0: define\n7: spir_kernel\n19: void\n24: @k\n26: (\n27: )\n29: {\n31: ret\n35: void\n40: }\n",
        ),
        (b"", ""),
        (b" ; nothing but a comment\r\n", ""),
        (
            b"a-:!{!\"x y\"c\"\\00\" -5#3%\"1\n\"",
            "0: a-:\n3: !\n4: {\n5: !\"x y\"\n11: c\"\\00\"\n18: -5\n20: #3\n22: %\"1\n\"\n",
        ),
    ];
    for (text, lines) in cases {
        let ran = run_words(rt.alloc(), &["show", "--from", "llvm"], text)?;
        assert_eq!(rt; ran.status, Status::Ok, "{text:?}");
        assert_eq!(rt; ran.out.as_slice(), lines.as_bytes(), "{text:?}");
        assert_eq!(rt; ran.err.as_slice().len(), 0);
    }
    Ok(())
}

#[test]
fn what_is_no_token_is_refused(rt: HostRuntime) -> Result<(), Fail> {
    let cases: [(&[u8], &str); 6] = [
        (
            b"define \xC3( ; L1 comes before L2: &",
            "refused: rule L1 at byte 7\n",
        ),
        (b"; \xFF", "refused: rule L1 at byte 2\n"),
        (b"define & %", "refused: rule L2 at byte 7\n"),
        (b"ret %", "refused: rule L2 at byte 4\n"),
        (b"c\"ab", "refused: rule L2 at byte 1\n"),
        (b"%\"ab", "refused: rule L2 at byte 0\n"),
    ];
    for (text, line) in cases {
        let ran = run_words(rt.alloc(), &["show", "--from", "llvm"], text)?;
        assert_eq!(rt; ran.status, Status::Refused, "{text:?}");
        assert_eq!(rt; ran.err.as_slice(), line.as_bytes(), "{text:?}");
        assert_eq!(rt; ran.out.as_slice().len(), 0);
    }
    Ok(())
}
