//! Whole inputs: a model, the line `%response`, a response and its log, with lines counted from the model's first.
use crate::judging::refused_line;
use crate::reading::valid_model;
use cps_cert::{check, split};
use std::alloc::Global;
use std::process::Abort;
use std::str;
use std::test::Fail;

/// An input, how many of its bytes are the model's text, how many stand behind the mark, and the number of the first
/// line of these.
type Parts = (&'static str, usize, usize, u64);

/// The mark is a whole line, the first one; as the last bytes of an input it needs no line feed.
static SPLIT: [Parts; 18] = [
    ("", 0, 0, 1),
    ("\n", 1, 0, 2),
    ("%response", 0, 0, 1),
    ("%response\n", 0, 0, 2),
    ("%response\n\n", 0, 1, 2),
    ("%response\nb", 0, 1, 2),
    ("a\n%response\nb\n", 2, 2, 3),
    ("a\n\n%response\nb\nc\n", 3, 4, 4),
    ("a\n%response", 2, 0, 2),
    ("%response\n%response\n", 0, 10, 2),
    ("a\n%response\n%response", 2, 9, 3),
    ("%response %response\n", 20, 0, 2),
    (" %response\n", 11, 0, 2),
    ("a%response\n", 11, 0, 2),
    ("%response \n%response\nb\n", 11, 2, 3),
    ("%responses\n", 11, 0, 2),
    ("%response\r\n", 11, 0, 2),
    ("%Response\n%respons", 18, 0, 2),
];

fn assert_split(rt: &impl Abort, rows: &[Parts]) {
    for (input, model, behind, line) in rows {
        let parts = split(input.as_bytes());
        assert!(rt; parts.model.len() == *model, "{input}");
        assert!(rt; parts.response.len() == *behind, "{input}");
        assert!(rt; parts.first_line == *line, "{input}");
    }
}

#[test]
fn inputs_are_split_at_the_mark(rt: HostRuntime) {
    assert_split(&rt, &SPLIT)
}

/// The line of an input that is refused, counted from the input's first.
fn refused_of_input(rt: &impl Abort, alloc: Global, input: &str) -> Result<Option<u64>, Fail> {
    let parts = split(input.as_bytes());
    let text = str::from_utf8(parts.model).map_err(|_| "no text")?;
    let model = valid_model(rt, alloc, text)?;
    Ok(refused_line(check(alloc, &model, parts.response, parts.first_line)?))
}

/// Three variables of two values, no two of them equal, on one line.
macro_rules! three_in_two {
    ($behind:literal) => {
        concat!(
            "variables { domain: [0, 1] } variables { domain: [0, 1] } variables { domain: [0, 1] } ",
            "constraints { linear { vars: [0, 1] coeffs: [1, -1] domain: [-1, -1, 1, 1] } } ",
            "constraints { linear { vars: [0, 2] coeffs: [1, -1] domain: [-1, -1, 1, 1] } } ",
            "constraints { linear { vars: [1, 2] coeffs: [1, -1] domain: [-1, -1, 1, 1] } }",
            $behind
        )
    };
}

/// Inputs, each with the line that is refused; 0 if none is.
static INPUTS: [(&str, u64); 14] = [
    (
        three_in_two!(
            "\n%response\nstatus: INFEASIBLE\n%log\ne 0 0>=1 1>=1\ne 1 0>=1 2>=1\ne 2 1<=0 2<=0\nl 0>=1\n\
            e 0 0<=0 1<=0\ne 1 0<=0 2<=0\ne 2 1>=1 2>=1\nl\n%end\n"
        ),
        0,
    ),
    (
        three_in_two!(
            "\n%response\nstatus: INFEASIBLE\n%log\ne 0 0>=1 1>=1\ne 1 0>=1 2>=1\ne 2 1<=0 2<=0\n\
            e 0 0<=0 1<=0\ne 1 0<=0 2<=0\ne 2 1>=1 2>=1\nl\n%end\n"
        ),
        11,
    ),
    (three_in_two!("\n"), 2),
    (three_in_two!(""), 1),
    (three_in_two!("\n%response\n"), 3),
    (three_in_two!("\n%response"), 2),
    (three_in_two!("\n%response\nstatus: INFEASIBLE\n"), 4),
    (three_in_two!("\n%response\nstatus: INFEASIBLE"), 3),
    (
        three_in_two!("\n%response\n%response\nstatus: INFEASIBLE\n"),
        3,
    ),
    (
        three_in_two!("\n\n# none\n\n%response\nstatus: UNKNOWN\n"),
        6,
    ),
    ("%response\nstatus: OPTIMAL\n%log\no\nl\n%end\n", 0),
    ("%response\nstatus: OPTIMAL\n%log\nl\n%end\n", 4),
    ("%response\nstatus: OPTIMAL\n%log\no\nl\n%end", 6),
    ("", 1),
];

fn assert_inputs(rt: &impl Abort, alloc: Global, rows: &[(&str, u64)]) -> Result<(), Fail> {
    for (input, line) in rows {
        let found = refused_of_input(rt, alloc, input)?;
        let wanted = if *line == 0 { None } else { Some(*line) };
        assert!(rt;
            found == wanted,
            "refused at {found:?}, not at {wanted:?}: {input}"
        );
    }
    Ok(())
}

#[test]
fn whole_inputs_are_judged(rt: HostRuntime) -> Result<(), Fail> {
    assert_inputs(&rt, rt.alloc(), &INPUTS)
}
