use line_text::text_line::is_passed_over;
use line_text::{Lines, Number, TextLine, Words};

fn line(text: &[u8], ended: bool) -> TextLine<'_> {
    TextLine { text, ended }
}

#[test]
fn lines_end_with_line_feeds(rt: HostRuntime) {
    let mut lines = Lines::new(b"a b\n\n\tc\r\n");
    assert_eq!(rt; lines.next_line(), Some(line(b"a b", true)));
    assert_eq!(rt; lines.next_line(), Some(line(b"", true)));
    assert_eq!(rt; lines.next_line(), Some(line(b"\tc\r", true)));
    assert_eq!(rt; lines.next_line(), None);
    assert_eq!(rt; lines.next_line(), None);
}

#[test]
fn a_last_line_may_lack_its_end(rt: HostRuntime) {
    let mut lines = Lines::new(b"\nhouse");
    assert_eq!(rt; lines.next_line(), Some(line(b"", true)));
    assert_eq!(rt; lines.next_line(), Some(line(b"house", false)));
    assert_eq!(rt; lines.next_line(), None);
    assert_eq!(rt; Lines::new(b"").next_line(), None);
}

#[test]
fn empty_lines_and_comments_are_passed_over(rt: HostRuntime) {
    assert!(rt; is_passed_over(b""));
    assert!(rt; is_passed_over(b"# a comment"));
    assert!(rt; !is_passed_over(b"\r"));
    assert!(rt; !is_passed_over(b" #"));
    assert!(rt; !is_passed_over(b"house"));
}

#[test]
fn single_spaces_part_words(rt: HostRuntime) {
    let mut words = Words::new(b" a  b\tc ");
    assert_eq!(rt; words.next_word(), Some(b"".as_slice()));
    assert_eq!(rt; words.next_word(), Some(b"a".as_slice()));
    assert_eq!(rt; words.next_word(), Some(b"".as_slice()));
    assert_eq!(rt; words.next_word(), Some(b"b\tc".as_slice()));
    assert!(rt; !words.is_done());
    assert_eq!(rt; words.next_word(), Some(b"".as_slice()));
    assert!(rt; words.is_done());
    assert_eq!(rt; words.next_word(), None);
}

#[test]
fn an_empty_line_has_an_empty_word(rt: HostRuntime) {
    let mut words = Words::new(b"");
    assert!(rt; !words.is_done());
    assert!(rt; words.name().is_none());
    assert!(rt; words.number().is_none());
    assert_eq!(rt; words.next_word(), Some(b"".as_slice()));
    assert!(rt; words.is_done());
    assert!(rt; words.amount().is_none());
}

#[test]
fn numbers_have_no_sign_and_no_leading_zero(rt: HostRuntime) {
    assert_eq!(rt; Number::from_bytes(b"0"), Some(Number::Fits(0)));
    assert_eq!(rt; Number::from_bytes(b"7"), Some(Number::Fits(7)));
    assert_eq!(rt; Number::from_bytes(b"100"), Some(Number::Fits(100)));
    assert_eq!(rt; Number::from_bytes(b""), None);
    assert_eq!(rt; Number::from_bytes(b"00"), None);
    assert_eq!(rt; Number::from_bytes(b"01"), None);
    assert_eq!(rt; Number::from_bytes(b"+1"), None);
    assert_eq!(rt; Number::from_bytes(b"-1"), None);
    assert_eq!(rt; Number::from_bytes(b"1a"), None);
    assert_eq!(rt; Number::from_bytes(b"1\r"), None);
}

#[test]
fn numbers_have_any_length(rt: HostRuntime) {
    let most = Number::from_bytes(b"18446744073709551615");
    assert_eq!(rt; most, Some(Number::Fits(u64::MAX)));
    let beyond = Number::from_bytes(b"18446744073709551616");
    assert_eq!(rt; beyond, Some(Number::Exceeds));
    let long = Number::from_bytes(b"1000000000000000000000000000000000000000");
    assert_eq!(rt; long, Some(Number::Exceeds));
    let zeros = Number::from_bytes(b"0000000000000000000000000000000000000001");
    assert_eq!(rt; zeros, None);
}

#[test]
fn amounts_end_below_2_to_the_63(rt: HostRuntime) {
    let mut words = Words::new(b"0 9223372036854775807 9223372036854775808 18446744073709551616");
    assert_eq!(rt; words.amount(), Some(0));
    assert_eq!(rt; words.amount(), Some(9223372036854775807));
    assert_eq!(rt; words.amount(), None);
    assert_eq!(rt; words.number(), Some(Number::Fits(9223372036854775808)));
    assert_eq!(rt; words.amount(), None);
    assert_eq!(rt; words.number(), Some(Number::Exceeds));
    assert!(rt; words.is_done());
}

#[test]
fn a_number_may_exceed_32_bits(rt: HostRuntime) {
    let mut words = Words::new(b"4294967295 4294967296 x");
    assert_eq!(rt; words.number_u32(), Some(Some(4294967295)));
    assert_eq!(rt; words.number_u32(), Some(None));
    assert_eq!(rt; words.number_u32(), None);
    assert_eq!(rt; words.next_word(), Some(b"x".as_slice()));
}

#[test]
fn names_have_16_characters_at_most(rt: HostRuntime) {
    let mut words = Words::new(b"abcdefghijklmno9 abcdefghijklmnopq");
    let name = words.name().expect(&rt, "a name of 16 characters");
    assert_eq!(rt; name.as_bytes(), b"abcdefghijklmno9".as_slice());
    assert!(rt; words.name().is_none());
    assert_eq!(rt; words.next_word(), Some(b"abcdefghijklmnopq".as_slice()));
}

#[test]
fn a_line_is_read_word_by_word(rt: HostRuntime) {
    let mut words = Words::new(b"step alice bob-2 coins coin 100");
    assert_eq!(rt; words.next_word(), Some(b"step".as_slice()));
    let from = words.name().expect(&rt, "a name");
    assert_eq!(rt; from.as_bytes(), b"alice".as_slice());
    assert!(rt; words.number().is_none());
    let to = words.name().expect(&rt, "a name");
    assert_eq!(rt; to.as_bytes(), b"bob-2".as_slice());
    assert!(rt; words.name().is_some());
    assert!(rt; words.name().is_some());
    assert!(rt; words.name().is_none());
    assert_eq!(rt; words.amount(), Some(100));
    assert!(rt; words.is_done());
}

#[test]
fn ids_are_64_small_digits(rt: HostRuntime) {
    let word = b"00ff0000000000000000000000000000000000000000000000000000000000a9 00FF";
    let mut words = Words::new(word);
    let id = words.id().expect(&rt, "an id");
    assert_eq!(rt; id.0[0], 0);
    assert_eq!(rt; id.0[1], 255);
    assert_eq!(rt; id.0[31], 169);
    assert!(rt; words.id().is_none());
    assert_eq!(rt; words.next_word(), Some(b"00FF".as_slice()));
}
