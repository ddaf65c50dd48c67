//! Which kind of worker has which number. No other place says it.
ghost use Rattle.std.specs.Prelude.{◌≡◌, ◌↔◌, IsTrue};
ghost use Rattle.cps_crew.specs.Workers.{worker_kind, SearchesNear};

use cps_search::WorkerKind;

/// The kind of the worker of this number: number 0 follows the strategies, and after it three kinds come in turn.
pub fn kind_of(number: u32) -> WorkerKind
    ensures { result ≡ worker_kind number }
{
    match (number, number % 3) {
        (0, _) => WorkerKind::Fixed,
        (_, 1) => WorkerKind::Activity,
        (_, 2) => WorkerKind::CoreGuided,
        _ => WorkerKind::Near,
    }
}

/// Whether workers of this kind search near solutions.
fn is_near(kind: WorkerKind) -> bool
    ensures { IsTrue result ↔ (kind ≡ WorkerKind.Near) }
{
    matches!(kind, WorkerKind::Near)
}

/// Whether one of `workers` workers searches near solutions, and so reads the pool.
pub fn reads_pool(workers: u32) -> bool
    ensures { IsTrue result ↔ SearchesNear workers }
{
    for number in 0..workers {
        if is_near(kind_of(number)) {
            return true;
        }
    }
    false
}
