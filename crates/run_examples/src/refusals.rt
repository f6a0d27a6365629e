//! Short units that are refused, with what is told of each.

use crate::runs::is_refused;
use mbac_top::Cause;
use psl_model::Refusal;

static REFUSED: [(&[u8], Cause, &[u8]); 17] = [
    (
        b"vunit u { assert always a # b; }",
        Cause::Refused(Refusal::BadByte { offset: 26 }),
        b"mbac: BadByte 26\n",
    ),
    (
        b"vunit u { assert forall i; }",
        Cause::Refused(Refusal::LeftOut { offset: 17 }),
        b"mbac: LeftOut 17\n",
    ),
    (
        b"",
        Cause::Refused(Refusal::Syntax { offset: 0 }),
        b"mbac: Syntax 0\n",
    ),
    (
        b"vunit u { assert always",
        Cause::Refused(Refusal::Syntax { offset: 23 }),
        b"mbac: Syntax 23\n",
    ),
    (
        b"vunit u { wire a; wire a; }",
        Cause::Refused(Refusal::DuplicateName { offset: 23 }),
        b"mbac: DuplicateName 23\n",
    ),
    (
        b"vunit u { assert {a[*3:2]}; }",
        Cause::Refused(Refusal::BadRange { offset: 23 }),
        b"mbac: BadRange 23\n",
    ),
    (
        b"vunit u { assert always (go -> next[1048577](a)); }",
        Cause::Refused(Refusal::CountTooLarge { offset: 36 }),
        b"mbac: CountTooLarge 36\n",
    ),
    (
        b"vunit u { assert always (go -> next_e[0:100000](ack)); }",
        Cause::Refused(Refusal::CountTooLarge { offset: 40 }),
        b"mbac: CountTooLarge 40\n",
    ),
    (
        b"vunit u { assert 4'd16; }",
        Cause::Refused(Refusal::BadLiteral { offset: 17 }),
        b"mbac: BadLiteral 17\n",
    ),
    (
        b"vunit u { wire [7:0] d; assert d[8]; }",
        Cause::Refused(Refusal::BadSelect { offset: 33 }),
        b"mbac: BadSelect 33\n",
    ),
    (
        b"vunit u { wire [64:0] d; }",
        Cause::Refused(Refusal::TooWide { offset: 16 }),
        b"mbac: TooWide 16\n",
    ),
    (
        b"vunit u { assert 1 < 2; }",
        Cause::Refused(Refusal::ConstantArithmetic { offset: 19 }),
        b"mbac: ConstantArithmetic 19\n",
    ),
    (
        b"vunit u { assert always {a;b}; assert 1 < 2; }",
        Cause::Refused(Refusal::ConstantArithmetic { offset: 40 }),
        b"mbac: ConstantArithmetic 40\n",
    ),
    (
        b"vunit u { assert {a;b}; }",
        Cause::Refused(Refusal::Unbuilt),
        b"mbac: Unbuilt\n",
    ),
    (
        b"vunit u { assert a; assert {a} |-> {b;c}; assert b; }",
        Cause::Refused(Refusal::Unbuilt),
        b"mbac: Unbuilt\n",
    ),
    (
        b"vunit u { assert {{a;b}[*1025]} |-> c; }",
        Cause::Refused(Refusal::TooManyPlaces {
            directive: 1,
            sequence: 1,
            places: 4100,
        }),
        b"mbac: TooManyPlaces 1 1 4100\n",
    ),
    (
        b"vunit u { assert {a[*0:1023]} |-> b; assert {a[*0:1023]} |-> b; }",
        Cause::Refused(Refusal::TooManySteps {
            directive: 2,
            count: 1_047_552,
        }),
        b"mbac: TooManySteps 2 1047552\n",
    ),
];

#[test]
fn a_refusal_is_told_by_its_name_and_fields(rt: HostRuntime) {
    for (unit, cause, note) in &REFUSED {
        assert!(rt; is_refused(rt.alloc(), unit, cause, note), "{unit:?}");
    }
}
