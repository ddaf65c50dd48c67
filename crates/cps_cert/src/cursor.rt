//! Lines from the front of bytes, one after another.
ghost use Rattle.std.specs.Prelude.{◌≡◌, ◌+◌, ◌<◌, ◌^◌, IsTrue, MatchOption};
ghost use Rattle.std.specs.List.{list_all};
ghost use Rattle.cps_cert.specs.Parts.{feed_count};
ghost use Rattle.cps_cert.specs.Verdicts.{is_no_feed};
ghost use Rattle.cps_cert.specs.Words.{IsRun};
ghost use Rattle.cps_cert.specs.Progress.{IsNextLine};

/// Where a reading of lines stands.
#[derive(Clone, Copy)]
pub(crate) struct Cursor<'a> {
    /// What is not read yet.
    pub(crate) rest: &'a [u8],
    /// The number of the line that is next.
    pub(crate) number: u64,
}

/// How many bytes stand before the first line feed.
fn line_length(bytes: &[u8]) -> usize
    ensures { IsRun is_no_feed bytes.now result }
{
    for (count, byte) in bytes.iter().enumerate() {
        if *byte == b'\n' {
            return count;
        }
    }
    bytes.len()
}

/// The next line without its line feed, and where the reading stands behind it; `None` where no line feed is left.
pub(crate) fn next_line(cursor: Cursor<'_>) -> Option<(&[u8], Cursor<'_>)>
    requires { cursor.number + feed_count cursor.rest.now < 2 ^ 64 }
    ensures { MatchOption result (IsTrue (list_all is_no_feed cursor.entry.rest.now))
        (λ p. IsNextLine cursor.entry.rest.now p.0.now p.1.rest.now × (p.1.number ≡ cursor.entry.number + 1)) }
{
    let count = line_length(cursor.rest);
    if count == cursor.rest.len() {
        return None;
    }
    let behind = Cursor {
        rest: &cursor.rest[count + 1..],
        number: cursor.number + 1,
    };
    Some((&cursor.rest[..count], behind))
}
