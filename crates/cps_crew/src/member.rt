//! What a crew asks of each of its workers.
//!
//! Each worker is made by its number (`Recruit`), takes turns, and leaves what is seen of it when it has ended
//! (`Member`). Of what a worker is the crew knows the kind alone that its number has (`kind_of`). So what is proved of a
//! crew rests on these contracts alone.
ghost use Rattle.std.specs.Prelude.{◌≡◌, ℕ, ◌+◌, ◌≤◌, length, false, IsTrue, IfOk, OnOk};
ghost use Rattle.cps_model.specs.declared.model.CpModel.{CpModel};
ghost use Rattle.cps_options.specs.Ranges.{AreInRange};
ghost use Rattle.cps_search.specs.Keeps.{Keeps};
ghost use Rattle.cps_search.specs.Ends.{IsOver};
ghost use Rattle.cps_crew.specs.Workers.{AnySearch, search_in, frame_in, kind_in, worker_kind, ending_in, BeginsAs, DrawsBy, HasEnded, HasTurned, PutsFound, WasHanded};

use crate::ended::AnyEnded;
use cps_options::Options;
use cps_pool::Pool;
use cps_port::Port;
use cps_search::{Phase, WorkerKind};
use cps_validate::ValidModel;
use std::alloc::{AllocError, Global};

/// A worker of a crew.
pub trait Member: Drop {
    // what is known of it
    ghost known: { Self → AnySearch };

    // how many solutions the pool had when it was last handed one
    ghost handed: { Self → ℕ };

    /// Takes one turn. Answers whether it was the worker's last. A solution that is found goes into the pool. A worker
    /// that searches near solutions was handed the pool's last one before: so much is owed where all solutions come
    /// through this value of the pool, as in turns.
    fn turn<Q: Port, F: Pool>(&mut self, port: &mut Q, pool: &mut F) -> Result<bool, AllocError>
        requires memory { (search_in (known self.old)).refused ≡ false }
        requires running { IsOver (search_in (known self.old)).phase → ⊥ }
        requires model { Q.model port.old ≡ (search_in (known self.old)).instance.model }
        requires pool { F.model pool.old ≡ (search_in (known self.old)).instance.model }
        requires reads { kind_in (known self.old) ≡ WorkerKind.Near → IsTrue (F.is_read pool.old) }
        requires imported { (search_in (known self.old)).imported ≤ length (Q.part port.old).board.taken }
        ensures keeps { Keeps Q.model Q.rows Q.stays port.old port.new }
        ensures pool { F.model pool.new ≡ F.model pool.old }
        ensures is_read { F.is_read pool.new ≡ F.is_read pool.old }
        ensures found { OnOk result (PutsFound (F.is_read pool.old) (F.found pool.old) (F.found pool.new)
            (Q.rows port.old) (frame_in (known self.old)) (frame_in (known self.new)) (Q.part port.old)
            (Q.part port.new)) }
        ensures handed { F.IsAlone → OnOk result (WasHanded (F.found pool.old) (handed self.old) (handed self.new)
            (known self.old) (known self.new)) }
        ensures kind { kind_in (known self.new) ≡ kind_in (known self.old) }
        ensures turn { IfOk result (HasTurned (Q.rows port.old) (known self.old) (known self.new)
            (Q.part port.old) (Q.part port.new)) };

    /// The worker as others see it after it ended.
    fn finish(self) -> AnyEnded
        requires { IsOver (search_in (known self)).phase }
        ensures phase { (search_in (known self)).phase ≡ Phase.Over result.end }
        ensures is { result ≡ ending_in (known self) result.end };
}

/// A worker that is made for a crew, of a model that outlives it.
pub trait Recruit<'a>: Member {
    // the models that it can search
    ghost suits: { CpModel → Type 0 };

    /// The worker of this number, which knows nothing yet.
    fn of(
        alloc: Global,
        model: &'a ValidModel,
        options: &Options,
        number: u32,
    ) -> Result<Self, AllocError>
        requires range { AreInRange options.now }
        requires suits { suits model.now }
        ensures begins { IfOk result (λ worker. BeginsAs model.entry.now options.now (Self.known worker)) }
        ensures handed { IfOk result (λ worker. Self.handed worker ≡ 0) }
        ensures kind { IfOk result (λ worker. kind_in (Self.known worker) ≡ worker_kind number) }
        ensures draws { IfOk result (λ worker. DrawsBy options.now.seed number (Self.known worker)) };
}

/// Lets a worker take turns until one ends it.
pub fn run<W: Member, Q: Port, F: Pool>(
    worker: &mut W,
    port: &mut Q,
    pool: &mut F,
) -> Result<(), AllocError>
    requires memory { (search_in (W.known worker.old)).refused ≡ false }
    requires running { IsOver (search_in (W.known worker.old)).phase → ⊥ }
    requires model { Q.model port.old ≡ (search_in (W.known worker.old)).instance.model }
    requires pool { F.model pool.old ≡ (search_in (W.known worker.old)).instance.model }
    requires reads { kind_in (W.known worker.old) ≡ WorkerKind.Near → IsTrue (F.is_read pool.old) }
    requires imported { (search_in (W.known worker.old)).imported ≤ length (Q.part port.old).board.taken }
    ensures keeps { Keeps Q.model Q.rows Q.stays port.old port.new }
    ensures kind { kind_in (W.known worker.new) ≡ kind_in (W.known worker.old) }
    ensures runs { OnOk result (HasEnded (Q.rows port.old) (W.known worker.old) (W.known worker.new)
        (Q.part port.old) (Q.part port.new)) }
{
    'turns: loop {
        let over = worker.turn(port, pool)?;
        if over {
            return Ok(());
        }
    }
}
