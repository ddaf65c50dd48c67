//! Lines that are no items of a log: words, signs and numbers that are written in no way or in another way.
//!
//! Most clauses here could not be false, and constraint 0 cannot hold, so that nothing but the form decides.
use crate::judging::{Items, assert_items, refused};
use crate::reading::valid_model;
use std::alloc::Global;
use std::process::Abort;
use std::test::Fail;

const ANY: &str =
    "variables { domain: [0, 5] } variables { domain: [0, 5] } constraints { bool_or { } }";

const WORDS: Items = Items {
    model: ANY,
    response: "status: INFEASIBLE\n",
    rows: "\
+ e 0 0>=1 1>=1
- e 0  0>=1 1>=1
- e 0 0>=1  1>=1
-  e 0 0>=1 1>=1
- e 0 0>=1, 1>=1
- e 0 0>=1,1>=1
- e 0 0>=1;1>=1
- e 0\t0>=1
- e
- e0 0>=1
- e 0>=1
- E 0 0>=1
- ee 0 0>=1
- e x 0>=1
- e 0 x>=1
- e 0 0>=x
- e 0 0>=1 l
- e 0 0
- e 0 0 >=1
- e 0 0>= 1
- e 0 >=1
- e 0 0>=
- e 0 0>1
- e 0 0<1
- e 0 0=>1
- e 0 0==1
- e 0 0!1
- e 0 0<>1
- e 0 0>==1
- e 0 0>=1>=1
- e 0 0>=1.0
- e 0 0>=1e0
- e 0 0>=0x1
- l 0>=0 0
- l 0
- o 0
- o 0 0>=0
- t
- t 0>=0
- a
- a 0
- d 0>=0
- x
- c what stands here is no comment
- # nor here
- %log
- %end
- %response
- status: INFEASIBLE
",
};

/// A sign too many, a zero too many.
const NUMBERS: Items = Items {
    model: ANY,
    response: "status: INFEASIBLE\n",
    rows: "\
+ l 0>=-1
+ l 0>=0
- l 0>=-0
- l 0>=+0
- l 0>=--1
- l 0>=-
- l 0>=00
- l 0>=-01
- l 00>=0
- l +0>=0
- l -0>=0
- l -1>=0
+ e 0 0>=5
- e 00 0>=5
- e +0 0>=5
- e -0 0>=5
- e -1 0>=5
+ s 0 0 1
- s 00 0 1
- s +0 0 1
- s -0 0 1
- s 0 00 1
- s 0 -0 1
- s 0 0 01
- s 0 0 +1
- s 0 0  1
- s 0 0x1
- s 0 0>=1
",
};

/// Magnitudes are at most 2^62. Around 2^31, 2^32, 2^63, 2^64 and beyond nothing is taken for a smaller number.
const FAR: Items = Items {
    model: ANY,
    response: "status: INFEASIBLE\n",
    rows: "\
+ l 0<=4611686018427387904
- l 0<=4611686018427387905
+ l 0>=-4611686018427387904
- l 0>=-4611686018427387905
- l 0<=9223372036854775807
- l 0<=9223372036854775808
- l 0>=-9223372036854775808
- l 0>=-9223372036854775809
- l 0<=18446744073709551615
- l 0<=18446744073709551616
- l 0<=18446744073709551621
- l 0<=1000000000000000000000000000000000000000
- l 0>=-1000000000000000000000000000000000000000
- l 2>=0
- l 2147483648>=0
- l 4294967295>=0
- l 4294967296>=0
- l 9223372036854775808>=0
- l 18446744073709551616>=0
- l 1000000000000000000000000000000000000000>=0
- e 1 0>=5
- e 4294967295 0>=5
- e 4294967296 0>=5
- e 18446744073709551616 0>=5
- e 1000000000000000000000000000000000000000 0>=5
- s 18446744073709551616
- s 1000000000000000000000000000000000000000
- s 0 2147483648 1
- s 0 4294967296 1
- s 0 18446744073709551616 1
- s 0 0 18446744073709551617
- s 0 0 1; t 4294967298 0>=0
- s 0 0 1; t 18446744073709551618 0>=0
- a 18446744073709551616
",
};

#[test]
fn lines_are_refused_for_their_form(rt: HostRuntime) -> Result<(), Fail> {
    assert_items(&rt, rt.alloc(), &[WORDS, NUMBERS, FAR])
}

/// Logs with bytes that a text has not, or that would be lost in a table of lines, each with the line that is refused.
static BYTES: [(&[u8], u64); 14] = [
    (b"status: INFEASIBLE\n%log\n\n", 3),
    (b"status: INFEASIBLE\n%log\nl 0>=0 \n", 3),
    (b"status: INFEASIBLE\n%log\nl \n", 3),
    (b"status: INFEASIBLE\n%log\nl 0>=0\r\n", 3),
    (b"status: INFEASIBLE\n%log\nl 0>=0\x00\n", 3),
    (b"status: INFEASIBLE\n%log\nl 0>=0\xff\n", 3),
    (b"status: INFEASIBLE\n%log\nl 0>=\xc3\xa9\n", 3),
    (b"status: INFEASIBLE\n%log\n\xff\xfe\x00\n", 3),
    (b"status: INFEASIBLE\n%log\nl\xc2\xa00>=0\n", 3),
    (b"status: INFEASIBLE\n%log\r\nl 0>=0\n", 2),
    (b"status: INFEASIBLE\r\n%log\nl 0>=0\n", 1),
    (b"\xef\xbb\xbfstatus: INFEASIBLE\n%log\nl 0>=0\n", 1),
    (b"status: INFEASIBLE\x00\n%log\n", 1),
    (b"\x00\n", 1),
];

fn assert_bytes(rt: &impl Abort, alloc: Global, rows: &[(&[u8], u64)]) -> Result<(), Fail> {
    let model = valid_model(rt, alloc, ANY)?;
    for (place, (bytes, line)) in rows.iter().enumerate() {
        let found = refused(rt, alloc, &model, bytes)?;
        assert!(rt; found == Some(*line), "row {place}: {found:?}");
    }
    Ok(())
}

#[test]
fn lines_are_refused_for_their_bytes(rt: HostRuntime) -> Result<(), Fail> {
    assert_bytes(&rt, rt.alloc(), &BYTES)
}
