//! Word tables.
use word_table::{Words, cause_name, line_words, reserved_words, rule_names};

const WRITTEN: &[&[u8]] = word_table::words![b"" b"a" b"ab" b"b"];

#[test]
fn finds_each_word_of_a_table_and_no_other(rt: HostRuntime) {
    let table: Words<4> = Words::new(WRITTEN);
    let cases: [(&[u8], Option<u16>); 8] = [
        (b"", Some(0)),
        (b"a", Some(1)),
        (b"ab", Some(2)),
        (b"b", Some(3)),
        (b"aa", None),
        (b"abc", None),
        (b"A", None),
        (b"c", None),
    ];
    for (word, row) in cases {
        assert_eq!(rt; table.find(word), row);
    }
    assert_eq!(rt; table.at(2), b"ab".as_slice());
}

#[test]
fn the_reserved_words_are_found_by_row(rt: HostRuntime) {
    let table = reserved_words();
    let cases: [(&[u8], Option<u16>); 9] = [
        (b"always", Some(0)),
        (b"and", Some(1)),
        (b"endmodule", Some(26)),
        (b"module", Some(57)),
        (b"wire", Some(120)),
        (b"xor", Some(123)),
        (b"modul", None),
        (b"Module", None),
        (b"cell2", None),
    ];
    for (word, row) in cases {
        assert_eq!(rt; table.find(word), row);
    }
}

#[test]
fn the_first_words_of_lines_are_found_by_row(rt: HostRuntime) {
    let table = line_words();
    let cases: [(&[u8], Option<u16>); 7] = [
        (b"at", Some(0)),
        (b"churn", Some(4)),
        (b"connect", Some(6)),
        (b"place", Some(28)),
        (b"write", Some(42)),
        (b"pins", None),
        (b"Load", None),
    ];
    for (word, row) in cases {
        assert_eq!(rt; table.find(word), row);
    }
}

#[test]
fn the_names_of_rules_are_found_by_row(rt: HostRuntime) {
    let table = rule_names();
    let cases: [(&[u8], Option<u16>); 7] = [
        (b"AlreadyOpen", Some(0)),
        (b"BadGroup", Some(3)),
        (b"NotLegal", Some(39)),
        (b"NothingToRedo", Some(42)),
        (b"WidthMismatch", Some(65)),
        (b"Nothing", None),
        (b"Not", None),
    ];
    for (word, row) in cases {
        assert_eq!(rt; table.find(word), row);
    }
}

#[test]
fn causes_have_names_by_their_codes(rt: HostRuntime) {
    let cases: [(u32, &[u8]); 7] = [
        (1, b"NoSuchModule"),
        (37, b"FileTooLong"),
        (57, b"NoSize"),
        (74, b"TooManyModules"),
        (0, b""),
        (6, b""),
        (75, b""),
    ];
    for (code, name) in cases {
        assert_eq!(rt; cause_name(code), name);
    }
}
