//! The scopes and names of variables, and the numbers of their identifiers.

use crate::pieces::is_read_alike;
use std::test::Fail;
use vcd_reader::Vcd;

fn declares(vcd: &Vcd, place: usize, scope: &[u8], name: &[u8], code: usize) -> bool {
    match vcd.vars.get(place) {
        None => false,
        Some(var) => var.scope.bytes() == scope && var.name.bytes() == name && var.code == code,
    }
}

// A range may be glued to its name or stand apart, and a select is part of the name.
const DECLARATIONS: &str =
    "$scope module a $end $scope begin b.c $end $var reg 8 # m [2] [7:0] $end \
    $var reg 8 & v[7:0] $end $upscope $end $var reg 8 # n[1] $end $upscope $end $var real 1 ab r $end \
    $enddefinitions $end";

#[test]
fn a_path_joins_names_and_a_range_is_cut(rt: HostRuntime) -> Result<(), Fail> {
    assert!(rt; is_read_alike(rt.alloc(), DECLARATIONS.as_bytes()));
    let vcd = Vcd::read(rt.alloc(), DECLARATIONS.as_bytes())?;
    assert_eq!(rt; vcd.vars.len(), 4);
    for (place, scope, name, code) in [
        (0usize, b"a.b.c".as_slice(), b"m[2]".as_slice(), 0usize),
        (1, b"a.b.c".as_slice(), b"v".as_slice(), 1),
        (2, b"a".as_slice(), b"n[1]".as_slice(), 0),
        (3, b"".as_slice(), b"r".as_slice(), 2),
    ] {
        assert!(rt; declares(&vcd, place, scope, name, code));
    }
    Ok(())
}
