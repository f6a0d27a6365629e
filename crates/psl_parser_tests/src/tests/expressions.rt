//! Expressions.

use super::prop_gives;
use std::test::Fail;

#[test]
fn operators_bind_by_their_levels(rt: HostRuntime) {
    for (text, tree) in [
        (b"a".as_slice(), b"a".as_slice()),
        (b"a[3]", b"a[3]"),
        (b"a[3:0]", b"a[3:0]"),
        (b"1", b"1"),
        (b"4'b1010", b"4'b1010"),
        (b"true", b"true"),
        (b"false", b"false"),
        (b"!a", b"(! a)"),
        (b"~a[3]", b"(~ a[3])"),
        (b"&a", b"(& a)"),
        (b"|a", b"(| a)"),
        (b"^ ! a", b"(^ (! a))"),
        (b"!a + b", b"(+ (! a) b)"),
        (b"a + !b", b"(+ a (! b))"),
        (b"a + b - c", b"(- (+ a b) c)"),
        (b"a << b + c", b"(<< a (+ b c))"),
        (b"a + b << c", b"(<< (+ a b) c)"),
        (b"a << b >> c", b"(>> (<< a b) c)"),
        (b"a < b << c", b"(< a (<< b c))"),
        (b"a << b <= c", b"(<= (<< a b) c)"),
        (b"a < b >= c", b"(>= (< a b) c)"),
        (b"a == b > c", b"(== a (> b c))"),
        (b"a < b == c", b"(== (< a b) c)"),
        (b"a == b != c", b"(!= (== a b) c)"),
        (b"a & b == c", b"(& a (== b c))"),
        (b"a == b & c", b"(& (== a b) c)"),
        (b"a & b & c", b"(& (& a b) c)"),
        (b"a ^ b & c", b"(^ a (& b c))"),
        (b"a & b ^ c", b"(^ (& a b) c)"),
        (b"a ^ b ^ c", b"(^ (^ a b) c)"),
        (b"a | b ^ c", b"(| a (^ b c))"),
        (b"a ^ b | c", b"(| (^ a b) c)"),
        (b"a | b | c", b"(| (| a b) c)"),
        (b"a && b | c", b"(&& a (| b c))"),
        (b"a | b && c", b"(&& (| a b) c)"),
        (b"a && b && c", b"(&& (&& a b) c)"),
        (b"a || b && c", b"(|| a (&& b c))"),
        (b"a && b || c", b"(|| (&& a b) c)"),
        (b"a || b || c", b"(|| (|| a b) c)"),
        (b"a ? b : c || d", b"(? a b (|| c d))"),
        (b"a || b ? c : d", b"(? (|| a b) c d)"),
        (b"a ? b : c ? d : e", b"(? a b (? c d e))"),
        (b"a ? b ? c : d : e", b"(? a (? b c d) e)"),
        (b"(a)", b"a"),
        (b"((a)) + 1", b"(+ a 1)"),
        (b"a + (b + c)", b"(+ a (+ b c))"),
        (b"&a & &b", b"(& (& a) (& b))"),
    ] {
        assert!(rt; prop_gives(rt.alloc(), text, tree), "{text:?}");
    }
}
