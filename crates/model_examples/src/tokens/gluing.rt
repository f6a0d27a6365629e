//! Where tokens, blanks and comments end.

use super::gives;
use psl_lexer::Kind::{Mark, Name, Number, Sized, Text, Word};
use psl_lexer::{Key, Mark as Sign};

#[test]
fn the_longest_arrow_is_taken(rt: HostRuntime) {
    for (text, want) in [
        (
            b"a|->b".as_slice(),
            [
                (Name, 0, 1),
                (Mark(Sign::SuffixOverlapping), 1, 4),
                (Name, 4, 5),
            ]
            .as_slice(),
        ),
        (
            b"a|=>b",
            &[(Name, 0, 1), (Mark(Sign::SuffixNext), 1, 4), (Name, 4, 5)],
        ),
        (
            b"a| =>",
            &[
                (Name, 0, 1),
                (Mark(Sign::Or), 1, 2),
                (Mark(Sign::Equal), 3, 4),
                (Mark(Sign::Greater), 4, 5),
            ],
        ),
        (
            b"||->",
            &[(Mark(Sign::OrOr), 0, 2), (Mark(Sign::Arrow), 2, 4)],
        ),
    ] {
        assert!(rt; gives(rt.alloc(), text, Ok(want)), "{text:?}");
    }
}

#[test]
fn the_longest_bracket_or_comparison_is_taken(rt: HostRuntime) {
    for (text, want) in [
        (
            b"[*".as_slice(),
            [(Mark(Sign::RepeatOpen), 0, 2)].as_slice(),
        ),
        (
            b"[ +]",
            &[
                (Mark(Sign::OpenBracket), 0, 1),
                (Mark(Sign::Plus), 2, 3),
                (Mark(Sign::CloseBracket), 3, 4),
            ],
        ),
        (
            b"[-",
            &[(Mark(Sign::OpenBracket), 0, 1), (Mark(Sign::Minus), 1, 2)],
        ),
        (
            b"<->->",
            &[(Mark(Sign::DoubleArrow), 0, 3), (Mark(Sign::Arrow), 3, 5)],
        ),
        (
            b"<=<<",
            &[(Mark(Sign::LessEqual), 0, 2), (Mark(Sign::ShiftLeft), 2, 4)],
        ),
        (
            b"a<-b",
            &[
                (Name, 0, 1),
                (Mark(Sign::Less), 1, 2),
                (Mark(Sign::Minus), 2, 3),
                (Name, 3, 4),
            ],
        ),
    ] {
        assert!(rt; gives(rt.alloc(), text, Ok(want)), "{text:?}");
    }
}

#[test]
fn a_sign_belongs_to_the_word_before_it(rt: HostRuntime) {
    for (text, want) in [
        (
            b"until!_x".as_slice(),
            [(Word(Key::UntilStrongOverlapping), 0, 7), (Name, 7, 8)].as_slice(),
        ),
        (b"until!x", &[(Word(Key::UntilStrong), 0, 6), (Name, 6, 7)]),
        (
            b"until_!",
            &[
                (Word(Key::UntilOverlapping), 0, 6),
                (Mark(Sign::Exclamation), 6, 7),
            ],
        ),
        (
            b"untilx!_",
            &[(Name, 0, 6), (Mark(Sign::Exclamation), 6, 7), (Name, 7, 8)],
        ),
    ] {
        assert!(rt; gives(rt.alloc(), text, Ok(want)), "{text:?}");
    }
}

#[test]
fn a_sign_is_taken_with_a_word_or_by_itself(rt: HostRuntime) {
    for (text, want) in [
        (
            b"a until!b".as_slice(),
            [(Name, 0, 1), (Word(Key::UntilStrong), 2, 8), (Name, 8, 9)].as_slice(),
        ),
        (
            b"a until !b",
            &[
                (Name, 0, 1),
                (Word(Key::Until), 2, 7),
                (Mark(Sign::Exclamation), 8, 9),
                (Name, 9, 10),
            ],
        ),
        (
            b"next_event_a!(",
            &[
                (Word(Key::NextEventAStrong), 0, 13),
                (Mark(Sign::OpenParenthesis), 13, 14),
            ],
        ),
        (
            b"next!=",
            &[(Word(Key::NextStrong), 0, 5), (Mark(Sign::Equal), 5, 6)],
        ),
        (
            b"always!",
            &[(Word(Key::Always), 0, 6), (Mark(Sign::Exclamation), 6, 7)],
        ),
    ] {
        assert!(rt; gives(rt.alloc(), text, Ok(want)), "{text:?}");
    }
}

#[test]
fn names_and_literals_are_as_long_as_they_can(rt: HostRuntime) {
    for (text, want) in [
        (b"nexta".as_slice(), [(Name, 0, 5)].as_slice()),
        (b"a$1 _", &[(Name, 0, 3), (Name, 4, 5)]),
        (b"x_mbac_", &[(Name, 0, 7)]),
        (b"1a", &[(Number, 0, 1), (Name, 1, 2)]),
        (b"8_0b", &[(Number, 0, 3), (Name, 3, 4)]),
        (b"8'hFf", &[(Sized, 0, 5)]),
        (b"8'HxXzZ?_aAfF09", &[(Sized, 0, 15)]),
        (b"4'b1?x_", &[(Sized, 0, 7)]),
        (b"4'o_", &[(Sized, 0, 4)]),
        (b"8'h1g", &[(Sized, 0, 4), (Name, 4, 5)]),
    ] {
        assert!(rt; gives(rt.alloc(), text, Ok(want)), "{text:?}");
    }
}

#[test]
fn texts_and_comments_end_where_they_close(rt: HostRuntime) {
    for (text, want) in [
        (b"".as_slice(), [].as_slice()),
        (b" \t\r\n", &[]),
        (b"\"\"", &[(Text, 0, 2)]),
        (b"\" !#[]~\"", &[(Text, 0, 8)]),
        (b"\"// a\"b", &[(Text, 0, 6), (Name, 6, 7)]),
        (b"//", &[]),
        (b"// \"a\r\nb", &[(Name, 7, 8)]),
        (b"a// b\rc\n", &[(Name, 0, 1)]),
        (b"/**/a", &[(Name, 4, 5)]),
        (b"/*/*/a", &[(Name, 5, 6)]),
        (b"/*//*/a", &[(Name, 6, 7)]),
        (b"//*\na", &[(Name, 4, 5)]),
        (b"a/* \xff* / */b", &[(Name, 0, 1), (Name, 11, 12)]),
        (b"// \x80\xff\na", &[(Name, 6, 7)]),
    ] {
        assert!(rt; gives(rt.alloc(), text, Ok(want)), "{text:?}");
    }
}
