//! Samples drawn one after the other by one generator.
use cps_neighbourhood::choose_free;
use rand_core::utils::NextWord;
use rand_pcg::Lcg64Xsh32;
use std::alloc::{AllocError, Global};
use std::process::Abort;
use std::test::Fail;

/// A seed and a stream, below which number and how many are drawn, the first and the second sample, and the word after
/// them.
struct Row {
    seed: u64,
    stream: u64,
    limit: u32,
    count: u32,
    first: &'static [u32],
    second: &'static [u32],
    word: u32,
}

static ROWS: [Row; 9] = [
    Row {
        seed: 1,
        stream: 19,
        limit: 5,
        count: 5,
        first: &[0, 1, 2, 3, 4],
        second: &[0, 1, 2, 3, 4],
        word: 279583434,
    },
    Row {
        seed: 1,
        stream: 19,
        limit: 5,
        count: 0,
        first: &[],
        second: &[],
        word: 279583434,
    },
    Row {
        seed: 1,
        stream: 19,
        limit: 10,
        count: 3,
        first: &[0, 4, 6],
        second: &[2, 3, 7],
        word: 2761147077,
    },
    Row {
        seed: 0,
        stream: 19,
        limit: 10,
        count: 3,
        first: &[3, 6, 9],
        second: &[3, 4, 5],
        word: 1324989089,
    },
    Row {
        seed: 7,
        stream: 16,
        limit: 10,
        count: 3,
        first: &[0, 2, 6],
        second: &[1, 4, 5],
        word: 3262012250,
    },
    Row {
        seed: u64::MAX,
        stream: 31,
        limit: 7,
        count: 2,
        first: &[0, 6],
        second: &[0, 3],
        word: 1793808470,
    },
    Row {
        seed: 42,
        stream: 54,
        limit: 20,
        count: 5,
        first: &[0, 1, 2, 5, 17],
        second: &[0, 7, 8, 9, 13],
        word: 2762927671,
    },
    Row {
        seed: 1,
        stream: 19,
        limit: 1,
        count: 1,
        first: &[0],
        second: &[0],
        word: 501700140,
    },
    Row {
        seed: 1,
        stream: 19,
        limit: 6,
        count: 2,
        first: &[1, 2],
        second: &[0, 1],
        word: 864525098,
    },
];

/// Whether the next sample is this one.
fn draws_as(
    alloc: Global,
    draws: &mut Lcg64Xsh32,
    limit: u32,
    sample: &[u32],
) -> Result<bool, AllocError> {
    if sample.len() > limit as usize {
        return Ok(false);
    }
    let drawn = choose_free(alloc, limit, sample.len() as u32, draws)?;
    Ok(drawn.as_slice() == sample)
}

fn assert_drawn(rt: &impl Abort, alloc: Global, row: &Row) -> Result<(), Fail> {
    let mut draws = Lcg64Xsh32::new(row.seed, row.stream);
    assert!(rt; row.first.len() == row.count as usize);
    assert!(rt; draws_as(alloc, &mut draws, row.limit, row.first)?);
    assert!(rt; draws_as(alloc, &mut draws, row.limit, row.second)?);
    let word: u32 = draws.next_word();
    assert!(rt; word == row.word);
    Ok(())
}

fn assert_all_drawn(rt: &impl Abort, alloc: Global, rows: &[Row]) -> Result<(), Fail> {
    for row in rows {
        assert_drawn(rt, alloc, row)?;
    }
    Ok(())
}

#[test]
fn samples(rt: HostRuntime) -> Result<(), Fail> {
    assert_all_drawn(&rt, rt.alloc(), &ROWS)
}
