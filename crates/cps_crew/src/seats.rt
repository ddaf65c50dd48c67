//! Seats at the shared tables, and the workers that search there.
ghost use Rattle.std.specs.Prelude.{◌≡◌, ℕ, ◌<◌, length, All, slice_index_or, IfOk, IsErr, Some, None};
ghost use Rattle.cps_crew.specs.Crews.{MayWork, Worked};
ghost use Rattle.cps_crew.specs.declared.seats.Seated.{Seated as SeatedOf};

use crate::ended::AnyEnded;
use crate::recruiter::{Order, Recruiter};
use crate::table_port::TablePort;
use cps_options::Options;
use cps_outer::{Gate, Host};
use cps_pool::SharedPool;
use cps_validate::ValidModel;
use std::alloc::AllocError;
use std::sync::Wait;
use std::thread;
use std::thread::Threads;

/// The seats of a worker, and how it ended there.
#[derive(Drop)]
pub struct Seated<'a> {
    /// Its seats at the tables.
    pub port: TablePort<'a>,
    /// Its number.
    pub number: u32,
    /// The worker as others see it after it ended; none before, and where it ran out of memory.
    pub ended: Option<AnyEnded>,
}

/// What the workers of a crew are made of, and who makes them.
#[derive(Clone, Copy)]
pub struct Brief<'a, T> {
    pub model: &'a ValidModel,
    pub options: &'a Options,
    /// Makes each worker in the thread in which it searches.
    pub recruiter: &'a T,
}

/// How a worker ended. `None` where it ran out of memory, and nowhere else.
fn end_if_any(searched: Result<AnyEnded, AllocError>) -> Option<AnyEnded>
    ensures some { IfOk searched (λ ended. result ≡ Some ended) }
    ensures none { IsErr searched → result ≡ None }
{
    match searched {
        Ok(ended) => Some(ended),
        Err(AllocError) => None,
    }
}

/// Passes the gate, and then has the worker of these seats made and lets it search to its end.
fn work<T: Recruiter, R: Wait, G: Gate>(
    host: &Host<'_, R, G>,
    brief: &Brief<'_, T>,
    pool: &SharedPool<'_>,
    seated: &mut Seated<'_>,
)
    requires { MayWork T.suits brief.now.model.now brief.now.options.now pool.now.model.now
        pool.now.is_read seated.old }
    ensures { Worked brief.now.model.now brief.now.options.now seated.old seated.new }
{
    host.gate.arrive(seated.number);
    let order = Order {
        alloc: host.alloc,
        model: brief.model,
        options: brief.options,
        number: seated.number,
    };
    let mut found = pool.handle(host.rt);
    seated.ended = end_if_any(brief.recruiter.search(&order, &mut seated.port, &mut found));
}

/// Makes all workers and lets them search to their ends, each in a thread of its own if one can be made. The solutions
/// that they find go into the pool.
pub fn work_all<T: Recruiter + Sync, R: Threads + Wait + Sync, G: Gate + Sync>(
    host: &Host<'_, R, G>,
    brief: &Brief<'_, T>,
    crew: &mut [Seated<'_>],
    pool: &SharedPool<'_>,
)
    requires some { 0 < length crew.old }
    requires ready { All (MayWork T.suits brief.now.model.now brief.now.options.now pool.now.model.now
        pool.now.is_read) crew.old }
    ensures len { length crew.new ≡ length crew.old }
    ensures each { (i : ℕ) (d : SeatedOf) → i < length crew.old
        → Worked brief.now.model.now brief.now.options.now (slice_index_or crew.old i d)
        (slice_index_or crew.new i d) }
{
    thread::for_each_mut(
        host.rt,
        crew,
        crew.len(),
        &|_, seated| { work(host, brief, pool, seated) },
    );
}
