//! The options of a solving command.
ghost use Rattle.std.specs.Prelude.{◌↔◌, IsTrue};
ghost use Rattle.cps_options.specs.Ranges.{AreInRange, MayLog};

/// The fewest workers that may search.
pub const LEAST_WORKERS: u32 = 1;

/// The most workers that may search.
pub const MOST_WORKERS: u32 = 16;

/// The most conflicts from which a worker may be told to learn.
pub const MOST_CONFLICTS: u64 = 1_000_000_000;

/// The greatest gap that may be left.
pub const GREATEST_GAP: u64 = 9_223_372_036_854_775_807;

/// How a model is solved.
#[derive(Debug, Clone, Copy, PartialEq, Eq)]
pub struct Options {
    /// How many workers search, at least `LEAST_WORKERS` and at most `MOST_WORKERS`.
    pub workers: u32,
    /// From how many conflicts each worker may learn, at most `MOST_CONFLICTS`; one that searches near solutions does
    /// whole rounds, and may learn from up to 100 more.
    pub conflicts: u64,
    /// The seed of the random numbers that choose which variables a round frees, and the turns of an interleaved run.
    pub seed: u64,
    /// Whether the workers take turns in one thread.
    pub interleave: bool,
    /// By how much the objective of a solution may miss the best one, at most `GREATEST_GAP`.
    pub gap: u64,
    /// Whether a log of the proof is kept; only one worker with a gap of 0 may.
    pub log: bool,
}

impl Options {
    /// Whether a log may be kept: by one worker, with no gap.
    fn may_log(&self) -> bool
        ensures { IsTrue result ↔ MayLog self.now }
    {
        self.workers == 1 && self.gap == 0
    }

    /// Whether the numbers are in their ranges, and a log is asked for only where it may be kept.
    pub fn are_in_range(&self) -> bool
        ensures { IsTrue result ↔ AreInRange self.now }
    {
        LEAST_WORKERS <= self.workers
            && self.workers <= MOST_WORKERS
            && self.conflicts <= MOST_CONFLICTS
            && self.gap <= GREATEST_GAP
            && (!self.log || self.may_log())
    }
}
