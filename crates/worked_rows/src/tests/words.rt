use spv_words::{
    MAGIC, Order, StringError, WordError, WordFeed, get_word, put_word, put_words, string_words,
    words_string,
};
use std::test::Fail;

#[test]
fn words_have_their_bytes_in_order(rt: HostRuntime) -> Result<(), Fail> {
    let orders = [
        (Order::Little, [3, 2, 0x23, 7]),
        (Order::Big, [7, 0x23, 2, 3]),
    ];
    for (order, bytes) in orders {
        assert_eq!(rt; put_word(order, 0x0723_0203), bytes);
        assert_eq!(rt; get_word(order, bytes), 0x0723_0203);
        assert_eq!(rt;
            put_words(rt.alloc(), order, &[0x0723_0203])?.as_slice(),
            bytes.as_slice()
        );
    }
    Ok(())
}

#[test]
fn words_come_in_any_two_pieces(rt: HostRuntime) -> Result<(), Fail> {
    let words = [MAGIC, 0x0001_0200, 0xFFFF_FFFE];
    for order in [Order::Little, Order::Big] {
        let bytes = put_words(rt.alloc(), order, &words)?;
        for cut in 0..bytes.len() {
            let mut feed = WordFeed::new();
            let mut out = Vec::new(rt.alloc());
            assert_eq!(rt; feed.feed(&bytes[..cut], &mut out), Ok(()));
            let incomplete = if cut % 4 == 0 {
                None
            } else {
                Some(cut as u64 / 4)
            };
            assert_eq!(rt; feed.finish(), incomplete);
            assert_eq!(rt; feed.feed(&bytes[cut..], &mut out), Ok(()));
            assert_eq!(rt; feed.finish(), None);
            assert_eq!(rt; feed.order(), Some(order));
            assert_eq!(rt; out.as_slice(), words.as_slice());
        }
    }
    Ok(())
}

#[test]
fn another_first_word_is_no_magic_number(rt: HostRuntime) {
    let mut feed = WordFeed::new();
    let mut out = Vec::new(rt.alloc());
    assert_eq!(rt; feed.feed(&[3, 2, 0x23], &mut out), Ok(()));
    assert_eq!(rt; feed.feed(&[8], &mut out), Err(WordError::Magic));
    assert_eq!(rt; out.len(), 0);
    assert_eq!(rt; feed.feed(&[7], &mut out), Ok(()));
    assert_eq!(rt; out.as_slice(), [MAGIC].as_slice());
}

#[test]
fn texts_are_strings_of_words(rt: HostRuntime) -> Result<(), Fail> {
    let cases: [(&str, &[u32]); 7] = [
        ("", &[0]),
        ("k", &[0x6B]),
        ("ab", &[0x6261]),
        ("abc", &[0x0063_6261]),
        ("vadd", &[0x6464_6176, 0]),
        ("vadds", &[0x6464_6176, 0x73]),
        ("\u{e9}mile", &[0x696D_A9C3, 0x656C]),
    ];
    for (text, words) in cases {
        let mut spelled = string_words(rt.alloc(), text)?;
        assert_eq!(rt; spelled.as_slice(), words, "{text}");
        // Words behind a string are not its own.
        spelled.push(0x6261)?;
        let (read, used) = words_string(rt.alloc(), &spelled).ok().ok_or("a string")?;
        assert_eq!(rt; read.as_str(), text);
        assert_eq!(rt; used, words.len());
    }
    Ok(())
}

#[test]
fn words_that_begin_no_string(rt: HostRuntime) {
    let cases: [&[u32]; 5] = [
        &[],
        &[0x6463_6261],
        &[0x6100_0061],
        &[0x0061_0000],
        &[0x00FF_6161],
    ];
    for words in cases {
        assert_eq!(rt;
            words_string(rt.alloc(), words).err(),
            Some(StringError::Bad),
            "{words:?}"
        );
    }
}
