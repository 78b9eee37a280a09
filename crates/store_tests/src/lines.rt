//! What no clause says: each call on its happy path.
use line_texts::*;

#[test]
fn a_line_falls_into_its_words(rt: HostRuntime) {
    let line = without_return(b"old 12  a\r");
    assert!(rt; counts(line) && is_plain(line));
    let (verb, rest) = first_word(line);
    let (number, rest) = next_word(rest);
    assert_eq!(rt; verb, b"old".as_slice());
    assert_eq!(rt; read_digits(number, 7), Some(12));
    assert_eq!(rt; after_space(rest), b" a".as_slice());
    assert_eq!(rt; next_rest(rest), b" a".as_slice());
}

#[test]
fn a_number_has_its_digits_and_no_more(rt: HostRuntime) {
    assert_eq!(rt; read_digits(b"0009999", 7), Some(9999));
    assert_eq!(rt; read_digits(b"00009999", 7), None);
    assert_eq!(rt; read_digits(b"", 7), None);
    assert_eq!(rt; read_digits(b"+1", 7), None);
}

#[test]
fn a_text_falls_into_its_lines(rt: HostRuntime) {
    assert_eq!(rt;
        cut_line(b"a\n\nb"),
        (b"a".as_slice(), Some(b"\nb".as_slice()))
    );
    assert_eq!(rt; cut_line(b"\nb"), (b"".as_slice(), Some(b"b".as_slice())));
    assert_eq!(rt; cut_line(b"b\r"), (b"b\r".as_slice(), None));
    assert_eq!(rt; cut_line(b"b\n"), (b"b".as_slice(), Some(b"".as_slice())));
    assert_eq!(rt; cut_line(b""), (b"".as_slice(), None));
}

#[test]
fn a_decimal_has_no_zeros_before_it(rt: HostRuntime) {
    assert_eq!(rt; read_decimal(b"0", 7), Some(0));
    assert_eq!(rt; read_decimal(b"9999", 7), Some(9999));
    assert_eq!(rt; read_decimal(b"09", 7), None);
    assert_eq!(rt; read_decimal(b"00", 7), None);
    assert_eq!(rt; read_decimal(b"12345678", 7), None);
    assert_eq!(rt; read_decimal(b"", 7), None);
}
