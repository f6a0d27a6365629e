//! The waveform of a small checker with each of its tokens changed in turn, and cut anywhere. The answers were worked
//! out by hand from the rules of the format.

use crate::answers::Answer::{self, AtEnd, Back, Read, Syntax};
use crate::answers::Replay::{
    NoClock, NoCycles, NoScope, NoSignal, Unknown, Values, WideClock, WideSignal,
};
use crate::answers::told;
use std::alloc::{AllocError, Global};
use std::test::Fail;

const WAVEFORM: &str = "$date today $end
$version sim $end
$timescale 1ns $end
$scope module top $end
$var wire 1 ! clk $end
$var wire 1 \" a $end
$upscope $end
$enddefinitions $end
#0
$dumpvars
0!
x\"
$end
#5
1!
1\"
#10
0!
#15
1!
0\"
#20
0!
#25
1!
";

/// What the waveform gives: its edges are at 5, 15 and 25, with `a` at x, 1 and 0.
const SAME: Answer = Read(2, 9, Values(2, 0b10));

// The waveform with another word in place of one of its tokens. Each token stands on a line of its own, so those before
// it keep their offsets.
fn changed(alloc: Global, place: usize, word: &str) -> Result<String, AllocError> {
    let mut text = String::new(alloc);
    for (at, token) in WAVEFORM.split_whitespace().enumerate() {
        text.push_str(if at == place { word } else { token })?;
        text.push('\n')?;
    }
    Ok(text)
}

fn gives(alloc: Global, place: usize, word: &str, wanted: Answer) -> bool {
    match changed(alloc, place, word) {
        Ok(text) => told(alloc, text.as_bytes()) == wanted,
        Err(_) => false,
    }
}

/// What is told where a token is left out, where it is `$end`, and where it is a word of no meaning, token by token.
static EACH_TOKEN: [(Answer, Answer, Answer); 46] = [
    // $date
    (Syntax(1), Syntax(0), Syntax(0)),
    // today
    (SAME, Syntax(11), SAME),
    // $end
    (SAME, SAME, SAME),
    // $version
    (Syntax(18), Syntax(17), Syntax(17)),
    // sim
    (SAME, Syntax(31), SAME),
    // $end
    (SAME, SAME, SAME),
    // $timescale
    (Syntax(36), Syntax(35), Syntax(35)),
    // 1ns
    (SAME, Syntax(51), SAME),
    // $end
    (Syntax(118), SAME, Syntax(119)),
    // $scope
    (Syntax(56), Syntax(55), Syntax(55)),
    // module
    (Syntax(67), SAME, SAME),
    // top
    (Syntax(70), Syntax(69), Read(2, 9, NoScope)),
    // $end
    (Syntax(74), SAME, Syntax(73)),
    // $var
    (Syntax(79), Syntax(78), Syntax(78)),
    // wire
    (Syntax(86), SAME, SAME),
    // 1
    (Syntax(89), Syntax(88), Syntax(88)),
    // !
    (Syntax(95), Syntax(90), Syntax(170)),
    // clk
    (Syntax(93), Syntax(92), Read(2, 9, NoClock)),
    // $end
    (Syntax(169), SAME, Syntax(170)),
    // $var
    (Syntax(102), Syntax(101), Syntax(101)),
    // wire
    (Syntax(109), SAME, SAME),
    // 1
    (Syntax(112), Syntax(111), Syntax(111)),
    // "
    (Syntax(116), Syntax(113), Syntax(173)),
    // a
    (Syntax(116), Syntax(115), Read(2, 9, NoSignal)),
    // $end
    (Read(2, 9, NoSignal), SAME, Read(2, 9, NoSignal)),
    // $upscope
    (Syntax(123), Syntax(122), Syntax(122)),
    // $end
    (Syntax(132), SAME, Syntax(131)),
    // $enddefinitions
    (Syntax(137), Syntax(136), Syntax(136)),
    // $end
    (Syntax(153), SAME, Syntax(152)),
    // #0
    (SAME, SAME, Syntax(157)),
    // $dumpvars
    (SAME, SAME, Syntax(160)),
    // 0!
    (
        Read(2, 8, Values(1, 0b0)),
        Read(2, 8, Values(1, 0b0)),
        Syntax(170),
    ),
    // x"
    (
        Read(2, 8, Values(2, 0b10)),
        Read(2, 8, Values(2, 0b10)),
        Syntax(173),
    ),
    // $end
    (SAME, SAME, Syntax(176)),
    // #5
    (
        Read(2, 9, Values(1, 0b0)),
        Read(2, 9, Values(1, 0b0)),
        Syntax(181),
    ),
    // 1!
    (
        Read(2, 8, Values(1, 0b0)),
        Read(2, 8, Values(1, 0b0)),
        Syntax(184),
    ),
    // 1"
    (Read(2, 8, Unknown(0)), Read(2, 8, Unknown(0)), Syntax(187)),
    // #10
    (
        Read(2, 9, Values(1, 0b0)),
        Read(2, 9, Values(1, 0b0)),
        Syntax(190),
    ),
    // 0!
    (
        Read(2, 8, Values(1, 0b0)),
        Read(2, 8, Values(1, 0b0)),
        Syntax(194),
    ),
    // #15
    (
        Read(2, 9, Values(1, 0b0)),
        Read(2, 9, Values(1, 0b0)),
        Syntax(197),
    ),
    // 1!
    (
        Read(2, 8, Values(1, 0b0)),
        Read(2, 8, Values(1, 0b0)),
        Syntax(201),
    ),
    // 0"
    (
        Read(2, 8, Values(2, 0b11)),
        Read(2, 8, Values(2, 0b11)),
        Syntax(204),
    ),
    // #20
    (
        Read(2, 9, Values(1, 0b0)),
        Read(2, 9, Values(1, 0b0)),
        Syntax(207),
    ),
    // 0!
    (
        Read(2, 8, Values(1, 0b1)),
        Read(2, 8, Values(1, 0b1)),
        Syntax(211),
    ),
    // #25
    (
        Read(2, 9, Values(1, 0b1)),
        Read(2, 9, Values(1, 0b1)),
        Syntax(214),
    ),
    // 1!
    (
        Read(2, 8, Values(1, 0b1)),
        Read(2, 8, Values(1, 0b1)),
        Syntax(218),
    ),
];

/// What is told where the token at a place, from 0, is another word, or several.
static OTHER_WORDS: [(usize, &str, Answer); 64] = [
    // sizes and identifiers
    (15, "0", Syntax(88)),
    (15, "65537", Syntax(88)),
    (15, "+1", Syntax(88)),
    (15, "2", Read(2, 9, WideClock)),
    (21, "2", Read(2, 9, WideSignal)),
    (15, "01", SAME),
    (16, "\"", Syntax(170)),
    (22, "!", Syntax(173)),
    (19, "$var wire 2 ! b $end $var", Syntax(113)),
    (19, "$var wire 1 ! b $end $var", Read(3, 9, Values(2, 0b10))),
    (
        19,
        "$var wire 1 \" clk $end $var",
        Read(3, 9, Values(2, 0b10)),
    ),
    // scopes and names
    (19, "$scope begin in $end $var", Read(2, 9, NoSignal)),
    (25, "$upscope $end $upscope", Syntax(136)),
    (11, "top.in", Read(2, 9, NoScope)),
    (17, "clk [0:0]", SAME),
    (17, "clk[0:0]", SAME),
    (23, "a [0]", Read(2, 9, NoSignal)),
    (23, "a[0] [3:0]", Read(2, 9, NoSignal)),
    // changes before the declarations end, and words
    (27, "0! $enddefinitions", Syntax(136)),
    (27, "#0 $enddefinitions", Syntax(136)),
    (27, "$dumpvars", Syntax(136)),
    (28, "$end 1!", Read(2, 10, Values(2, 0b10))),
    (30, "$dumpall", SAME),
    (30, "$dumpon", SAME),
    (30, "$dumpoff", SAME),
    (30, "$comment", Read(2, 7, Values(1, 0b0))),
    (30, "$date", Syntax(160)),
    (33, "$comment", AtEnd),
    (45, "$comment", AtEnd),
    // times
    (29, "#", Syntax(157)),
    (29, "#x", Syntax(157)),
    (29, "#-1", Syntax(157)),
    (29, "0", Syntax(157)),
    (34, "#00005", SAME),
    (37, "#5", Read(2, 9, Values(1, 0b0))),
    (37, "#4", Back(190)),
    (39, "#9", Back(197)),
    (44, "#18446744073709551615", SAME),
    (44, "#18446744073709551616", Syntax(214)),
    // real and text values
    (30, "r1.5 !", SAME),
    (30, "R-0.5 ?", SAME),
    (30, "s1 ?", SAME),
    (30, "Sx \"", SAME),
    (45, "r0", AtEnd),
    // digits
    (35, "1?", Syntax(184)),
    (35, "1", Syntax(184)),
    (35, "2!", Syntax(184)),
    (35, "b1 !", SAME),
    (35, "B1 !", SAME),
    (35, "b1!", Syntax(184)),
    (35, "b01 !", Syntax(188)),
    (35, "b !", Syntax(184)),
    (35, "b2 !", Syntax(184)),
    (35, "X!", Read(2, 9, Values(1, 0b0))),
    (35, "bX !", Read(2, 9, Values(1, 0b0))),
    (45, "b1", AtEnd),
    (36, "BZ \"", Read(2, 9, Unknown(0))),
    (36, "x\"", Read(2, 9, Unknown(0))),
    (36, "1\" 0\"", Read(2, 10, Values(2, 0b00))),
    (36, "#6 1\"", SAME),
    (38, "z!", Read(2, 9, Values(1, 0b0))),
    (38, "0! 1! 0!", Read(2, 11, Values(2, 0b10))),
    (41, "#16 0\"", SAME),
    (41, "Z\"", Read(2, 9, Unknown(1))),
];

/// What is told of the front of the waveform, of so many bytes or more and less than the next entry's.
static FRONTS: [(usize, Answer); 61] = [
    (0, AtEnd),
    (1, Syntax(0)),
    (5, AtEnd),
    (18, Syntax(17)),
    (25, AtEnd),
    (36, Syntax(35)),
    (45, AtEnd),
    (56, Syntax(55)),
    (61, AtEnd),
    (74, Syntax(73)),
    (77, AtEnd),
    (79, Syntax(78)),
    (82, AtEnd),
    (102, Syntax(101)),
    (105, AtEnd),
    (123, Syntax(122)),
    (130, AtEnd),
    (132, Syntax(131)),
    (135, AtEnd),
    (137, Syntax(136)),
    (151, AtEnd),
    (153, Syntax(152)),
    (156, Read(2, 0, NoCycles)),
    (158, Syntax(157)),
    (159, Read(2, 0, NoCycles)),
    (161, Syntax(160)),
    (169, Read(2, 0, NoCycles)),
    (171, Syntax(170)),
    (172, Read(2, 1, NoCycles)),
    (174, Syntax(173)),
    (175, Read(2, 2, NoCycles)),
    (177, Syntax(176)),
    (180, Read(2, 2, NoCycles)),
    (182, Syntax(181)),
    (183, Read(2, 2, NoCycles)),
    (185, Syntax(184)),
    (186, Read(2, 3, NoCycles)),
    (188, Syntax(187)),
    (189, Read(2, 4, NoCycles)),
    (191, Syntax(190)),
    (192, Back(190)),
    (193, Read(2, 4, NoCycles)),
    (195, Syntax(194)),
    (196, Read(2, 5, NoCycles)),
    (198, Syntax(197)),
    (199, Back(197)),
    (200, Read(2, 5, NoCycles)),
    (202, Syntax(201)),
    (203, Read(2, 6, Values(1, 0b1))),
    (205, Syntax(204)),
    (206, Read(2, 7, Values(1, 0b1))),
    (208, Syntax(207)),
    (209, Back(207)),
    (210, Read(2, 7, Values(1, 0b1))),
    (212, Syntax(211)),
    (213, Read(2, 8, Values(1, 0b1))),
    (215, Syntax(214)),
    (216, Back(214)),
    (217, Read(2, 8, Values(1, 0b1))),
    (219, Syntax(218)),
    (220, SAME),
];

#[test]
fn each_token_may_be_left_out_or_another_word(rt: HostRuntime) -> Result<(), Fail> {
    assert_eq!(rt; told(rt.alloc(), WAVEFORM.as_bytes()), SAME);
    for (place, (left_out, at_end, strange)) in EACH_TOKEN.iter().enumerate() {
        assert!(rt;
            gives(rt.alloc(), place, "", *left_out),
            "without token {place}"
        );
        assert!(rt;
            gives(rt.alloc(), place, "$end", *at_end),
            "$end as token {place}"
        );
        assert!(rt;
            gives(rt.alloc(), place, "U", *strange),
            "U as token {place}"
        );
    }
    Ok(())
}

#[test]
fn other_words_are_read_or_refused_by_the_rules(rt: HostRuntime) -> Result<(), Fail> {
    for (place, word, wanted) in &OTHER_WORDS {
        assert!(rt;
            gives(rt.alloc(), *place, *word, *wanted),
            "{word} as token {place}"
        );
    }
    Ok(())
}

// What is told of the front of so many bytes.
fn wanted_of_front(count: usize) -> Option<Answer> {
    let mut wanted = None;
    for (from, answer) in &FRONTS {
        if *from <= count {
            wanted = Some(*answer);
        }
    }
    wanted
}

#[test]
fn the_text_may_end_anywhere(rt: HostRuntime) -> Result<(), Fail> {
    let text = WAVEFORM.as_bytes();
    for count in 0..text.len() {
        assert_eq!(rt;
            Some(told(rt.alloc(), &text[..count])),
            wanted_of_front(count),
            "{count} bytes"
        );
    }
    Ok(())
}
