//! Who makes the workers of a crew in threads, and lets them search.
//!
//! A worker is made, searches and ends in one thread: so workers are made side by side, and of a worker nothing passes
//! to another thread but how it ended. What the threads share is the recruiter, so that it alone need be `Sync`.
ghost use Rattle.std.specs.Prelude.{◌≡◌, IsTrue, IfOk};
ghost use Rattle.cps_model.specs.declared.model.CpModel.{CpModel};
ghost use Rattle.cps_options.specs.Ranges.{AreInRange};
ghost use Rattle.cps_search.specs.Keeps.{Keeps};
ghost use Rattle.cps_crew.specs.Crews.{HasSearched};
ghost use Rattle.cps_crew.specs.Workers.{worker_kind};

use crate::ended::AnyEnded;
use crate::member::{Recruit, run};
use cps_options::Options;
use cps_pool::Pool;
use cps_port::Port;
use cps_search::WorkerKind;
use cps_validate::ValidModel;
use std::alloc::{AllocError, Global};

/// What a worker is made of.
#[derive(Clone, Copy)]
pub struct Order<'a> {
    pub alloc: Global,
    /// The model, which outlives the worker.
    pub model: &'a ValidModel,
    pub options: &'a Options,
    /// The worker's number.
    pub number: u32,
}

/// Makes workers and lets them search, each in the thread of the call.
pub trait Recruiter {
    // the models that its workers can search
    ghost suits: { CpModel → Type 0 };

    /// Makes the worker that is ordered, and lets it search to its end.
    fn search<Q: Port, F: Pool>(
        &self,
        order: &Order<'_>,
        port: &mut Q,
        pool: &mut F,
    ) -> Result<AnyEnded, AllocError>
        requires range { AreInRange order.now.options.now }
        requires suits { suits order.now.model.now }
        requires model { Q.model port.old ≡ order.now.model.now }
        requires pool { F.model pool.old ≡ order.now.model.now }
        requires reads { worker_kind order.now.number ≡ WorkerKind.Near → IsTrue (F.is_read pool.old) }
        ensures keeps { Keeps Q.model Q.rows Q.stays port.old port.new }
        ensures searched { IfOk result (HasSearched order.now.model.now order.now.options.now order.now.number
            (Q.rows port.old) (Q.part port.old) (Q.part port.new)) };
}

/// Makes a worker of a type, and lets it search to its end.
pub fn search<'a, W: Recruit<'a>, Q: Port, F: Pool>(
    order: &Order<'a>,
    port: &mut Q,
    pool: &mut F,
) -> Result<AnyEnded, AllocError>
    requires range { AreInRange order.now.options.now }
    requires suits { W.suits order.now.model.now }
    requires model { Q.model port.old ≡ order.now.model.now }
    requires pool { F.model pool.old ≡ order.now.model.now }
    requires reads { worker_kind order.now.number ≡ WorkerKind.Near → IsTrue (F.is_read pool.old) }
    ensures keeps { Keeps Q.model Q.rows Q.stays port.old port.new }
    ensures searched { IfOk result (HasSearched order.now.model.now order.now.options.now order.now.number
        (Q.rows port.old) (Q.part port.old) (Q.part port.new)) }
{
    let mut worker = W::of(order.alloc, order.model, order.options, order.number)?;
    run(&mut worker, port, pool)?;
    Ok(worker.finish())
}
