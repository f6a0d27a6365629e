//! Units with their whole texts, words that are no command, and devices that fail.

use crate::runs::{Ending, Failing, ends};
use mbac_io::MemorySink;
use mbac_top::{Cause, Outcome, run_without_words};
use std::alloc::Global;
use std::test::Fail;

const UNIT: &[u8] = b"vunit u { assert always a; }\n";

const CHECKER: &[u8] = b"module mbac_u_1 (mbac_clk, mbac_rst, mbac_eot, a, mbac_fail);
  input mbac_clk;
  input mbac_rst;
  input mbac_eot;
  input a;
  output mbac_fail;
  reg mbac_r0;
  reg mbac_r1;
  wire mbac_n0 = mbac_r0;
  wire mbac_n1 = 1'd0;
  wire mbac_n2 = mbac_r1;
  wire mbac_n3 = (mbac_n0 || mbac_n2);
  wire mbac_n4 = (!mbac_n1);
  wire mbac_n5 = (mbac_n3 && mbac_n4);
  wire mbac_n6 = (|a);
  wire mbac_n7 = (!mbac_n6);
  wire mbac_n8 = (!mbac_n1);
  wire mbac_n9 = (mbac_n5 && mbac_n8);
  wire mbac_n10 = (mbac_n9 && mbac_n7);
  wire mbac_n11 = 1'd0;
  wire mbac_n12 = mbac_eot;
  wire mbac_n13 = (mbac_n12 && mbac_n11);
  wire mbac_n14 = (mbac_n10 || mbac_n13);
  assign mbac_fail = mbac_n14;
  always @(posedge mbac_clk) mbac_r0 <= (mbac_rst ? 1'd1 : mbac_n1);
  always @(posedge mbac_clk) mbac_r1 <= (mbac_rst ? 1'd0 : mbac_n5);
endmodule
";

/// A run: the words, the file, the call that fails, and how it ends.
#[derive(Drop)]
struct Run {
    words: &'static [&'static str],
    file: &'static [u8],
    failing: Failing,
    ending: Ending,
}

static RUNS: [Run; 6] = [
    Run {
        words: &["compile", "u.psl"],
        file: UNIT,
        failing: Failing::Nothing,
        ending: Ending {
            status: 0,
            cause: Cause::Done,
            text: CHECKER,
            note: b"",
        },
    },
    Run {
        words: &["compile", "u.psl"],
        file: b"vunit u { }",
        failing: Failing::Nothing,
        ending: Ending {
            status: 0,
            cause: Cause::Done,
            text: b"",
            note: b"",
        },
    },
    Run {
        words: &["compile"],
        file: UNIT,
        failing: Failing::Nothing,
        ending: Ending {
            status: 2,
            cause: Cause::Usage,
            text: b"",
            note: b"mbac: usage\n",
        },
    },
    Run {
        words: &["compile", ""],
        file: UNIT,
        failing: Failing::Nothing,
        ending: Ending {
            status: 2,
            cause: Cause::Usage,
            text: b"",
            note: b"mbac: usage\n",
        },
    },
    Run {
        words: &["compile", "u.psl"],
        file: UNIT,
        failing: Failing::Read(0),
        ending: Ending {
            status: 3,
            cause: Cause::ReadFault { slot: 0 },
            text: b"",
            note: b"mbac: read fault in file 0\n",
        },
    },
    Run {
        words: &["compile", "u.psl"],
        file: UNIT,
        failing: Failing::Write(1),
        ending: Ending {
            status: 4,
            cause: Cause::WriteFault,
            text: b"module mba",
            note: b"mbac: write fault\n",
        },
    },
];

fn ends_so(alloc: Global, run: &Run) -> bool {
    ends(alloc, run.words, run.file, run.failing, &run.ending)
}

#[test]
fn ends_with_a_text_usage_or_a_fault(rt: HostRuntime) {
    for run in &RUNS {
        assert!(rt; ends_so(rt.alloc(), run), "{:?}", run.ending.cause);
    }
}

// Where a call of the notes fails, what was told before it.
static PARTS: [(u64, &[u8]); 3] = [(0, b""), (1, b"mbac: "), (2, b"mbac: usage")];

fn tells_a_part(alloc: Global, call: u64, note: &'static [u8]) -> bool {
    let usage = Ending {
        status: 2,
        cause: Cause::Usage,
        text: b"",
        note,
    };
    ends(alloc, &[], UNIT, Failing::Note(call), &usage)
}

#[test]
fn ends_the_same_where_notes_fail(rt: HostRuntime) {
    for (call, note) in &PARTS {
        assert!(rt;
            tells_a_part(rt.alloc(), *call, *note),
            "a failure at call {call}"
        );
    }
}

#[test]
fn tells_that_there_is_no_memory_for_words(rt: HostRuntime) -> Result<(), Fail> {
    let alloc = rt.alloc();
    let mut notes = MemorySink::new(alloc, 100, 100, Vec::new(alloc))?;
    let outcome = run_without_words(&mut notes);
    let cause = Cause::OutOfMemory;
    assert_eq!(rt; outcome, Outcome { status: 5, cause });
    assert_eq!(rt; notes.taken(), b"mbac: out of memory\n".as_slice());
    Ok(())
}
