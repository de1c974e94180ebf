// Words of a line that are numbers, and words that are none.
use numerals::number;

#[test]
fn numbers(rt: HostRuntime) {
    let cases: [(&str, Option<i128>); 13] = [
        ("0", Some(0)),
        ("007", Some(7)),
        ("-500", Some(-500)),
        ("18446744073709551615", Some(18446744073709551615)),
        ("18446744073709551616", Some(18446744073709551616)),
        ("18446744073709551617", Some(18446744073709551616)),
        (
            "99999999999999999999999999999999999999999999",
            Some(18446744073709551616),
        ),
        (
            "-99999999999999999999999999999999999999999999",
            Some(-18446744073709551616),
        ),
        ("", None),
        ("-", None),
        ("--1", None),
        ("1:", None),
        ("+1", None),
    ];
    for (word, expected) in cases {
        assert_eq!(rt; number(word), expected, "number");
    }
}
