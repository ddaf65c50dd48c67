//! The calls of the two bounds and their seats.
//!
//! Each call but `new`, `split`, `join` and `close` is one atomic operation on one word, named by the step that it is
//! in the rule. Since words keep the order of bounds, `fetch_min` and `fetch_max` are the whole of `offer` and `raise`,
//! and what they found tells the answer; nothing is retried. Only a seat that has all splits back knows that the words
//! are exactly what was offered and raised.
ghost use Rattle.std.specs.Prelude.{◌≡◌, ℕ, ◌+◌, ◌-◌, ◌/◌, ◌<◌, ◌≤◌, min, IfOk};
ghost use Rattle.cps_model.specs.Start.{objective_start};
ghost use Rattle.cps_port.specs.Order.{BoundLe, IsNoLower, IsSmallBound, raised_above};
ghost use Rattle.cps_port.specs.Incumbents.{IsAttained, IsIncumbent, IsLowerBound};
ghost use Rattle.cps_port.specs.Parts.{no_bounds, after_upper, after_lower, after_offer, after_raise};
ghost use Rattle.cps_port.specs.Says.{AnswersOffer, AnswersRaise};
ghost use Rattle.cps_bounds.specs.Rule.{all_splits, newly, both_parts};
ghost use Rattle.cps_bounds.specs.Seats.{model_of, part_of, splits_of, IsSeatOf};

use crate::plays::{Both, Halves, Offer, Raise, SeeLower, SeeUpper};
use crate::seats::{Bounds, BoundsSeat};
use atomic_table::Table;
use cps_eval::objective_start;
use cps_model::Bound;
use cps_port::word::{bound_of, word_of};
use cps_validate::ValidModel;
use std::alloc::{AllocError, Global};

/// The splits of a whole table: 2^32, which can be halved for 32 workers.
const ALL_SPLITS: u64 = 4294967296;

impl Bounds {
    /// The two words of a model, and the first seat. The upper bound begins `Infinite`, and the lower one at the least
    /// objective that the domains allow.
    pub fn new(alloc: Global, model: &ValidModel) -> Result<(Bounds, BoundsSeat), AllocError>
        ensures model { IfOk result (λ t. model_of t.0 ≡ model.now) }
        ensures seat { IfOk result (λ t. IsSeatOf t.0 t.1 × (part_of t.1 ≡ no_bounds)) }
        ensures splits { IfOk result (λ t. splits_of t.1 ≡ all_splits) }
    {
        // Reading the model gives the proof its invariant: the model keeps every rule.
        let _ = model.model();
        let words = [u64::MAX, word_of(Bound::At(objective_start(model)))];
        let (table, seat) = Table::of_words(alloc, &words, model)?;
        Ok((
            Bounds { table },
            BoundsSeat {
                seat,
                splits: ALL_SPLITS,
            },
        ))
    }

    /// The least objective that was offered.
    pub fn upper(&self, seat: &mut BoundsSeat) -> Bound
        requires { IsSeatOf self.now seat.old }
        ensures own { IsSeatOf self.now seat.new × (splits_of seat.new ≡ splits_of seat.old) }
        ensures part { part_of seat.new ≡ after_upper (part_of seat.old) result ((part_of seat.old).upper_loads + 1) }
        ensures no_worse { BoundLe result (part_of seat.old).saw_upper }
        ensures means { IsIncumbent (model_of self.now) result }
    {
        bound_of(self.table.shared.load::<SeeUpper>(&mut seat.seat, 0))
    }

    /// The greatest of the start and of all raises.
    pub fn lower(&self, seat: &mut BoundsSeat) -> Bound
        requires { IsSeatOf self.now seat.old }
        ensures own { IsSeatOf self.now seat.new × (splits_of seat.new ≡ splits_of seat.old) }
        ensures part { part_of seat.new ≡ after_lower (part_of seat.old) result ((part_of seat.old).lower_loads + 1) }
        ensures no_worse { IsNoLower (part_of seat.old).saw_lower result }
        ensures means { IsLowerBound (model_of self.now) result }
    {
        bound_of(self.table.shared.load::<SeeLower>(&mut seat.seat, 1))
    }

    /// Lowers the upper bound to a solution's objective. The answer is the lesser of it and what stood.
    pub fn offer(&self, seat: &mut BoundsSeat, value: i64) -> Bound
        requires own { IsSeatOf self.now seat.old }
        requires value { IsAttained (model_of self.now) value }
        ensures own { IsSeatOf self.now seat.new × (splits_of seat.new ≡ splits_of seat.old) }
        ensures part { part_of seat.new ≡ after_offer (part_of seat.old) (Bound.At value) result }
        ensures answer { AnswersOffer (model_of self.now) (part_of seat.old).saw_upper (Bound.At value) result }
        ensures means { IsIncumbent (model_of self.now) result }
    {
        let word = word_of(Bound::At(value));
        let found = self
            .table
            .shared
            .fetch_min::<Offer>(&mut seat.seat, 0, word);
        bound_of(found.min(word))
    }

    /// Raises the lower bound. The answer is the greater of the value and what stood.
    pub fn raise(&self, seat: &mut BoundsSeat, value: Bound) -> Bound
        requires own { IsSeatOf self.now seat.old }
        requires bound { IsLowerBound (model_of self.now) value }
        requires small { IsSmallBound value }
        ensures own { IsSeatOf self.now seat.new × (splits_of seat.new ≡ splits_of seat.old) }
        ensures part { part_of seat.new ≡ after_raise (part_of seat.old) value result }
        ensures answer { AnswersRaise (model_of self.now) (part_of seat.old).saw_lower value result }
        ensures means { IsLowerBound (model_of self.now) result }
    {
        let word = word_of(value);
        let found = self
            .table
            .shared
            .fetch_max::<Raise>(&mut seat.seat, 1, word);
        bound_of(found.max(word))
    }

    /// Gives half of the splits to a new seat, which has offered and raised nothing.
    pub fn split(&self, seat: &mut BoundsSeat) -> BoundsSeat
        requires own { IsSeatOf self.now seat.old }
        requires room { 2 ≤ splits_of seat.old }
        ensures kept { IsSeatOf self.now seat.new × (part_of seat.new ≡ part_of seat.old) }
        ensures given { IsSeatOf self.now result × (part_of result ≡ newly (part_of seat.old)) }
        ensures splits { (splits_of result ≡ splits_of seat.old / 2)
            × (splits_of seat.new ≡ splits_of seat.old - splits_of seat.old / 2) }
    {
        let half = seat.splits / 2;
        let other = self.table.shared.split_seat::<Halves>(&mut seat.seat);
        seat.splits -= half;
        BoundsSeat {
            seat: other,
            splits: half,
        }
    }

    /// Takes over what another seat has and knows; the other seat is gone.
    pub fn join(&self, seat: &mut BoundsSeat, other: BoundsSeat)
        requires own { IsSeatOf self.now seat.old }
        requires other { IsSeatOf self.now other }
        ensures own { IsSeatOf self.now seat.new }
        ensures part { part_of seat.new ≡ both_parts (part_of seat.old) (part_of other) }
        ensures splits { splits_of seat.new ≡ min (splits_of seat.old + splits_of other) all_splits }
    {
        let BoundsSeat {
            seat: token,
            splits,
        } = other;
        self.table.shared.join_seat::<Both>(&mut seat.seat, token);
        seat.splits = (seat.splits + splits).min(ALL_SPLITS);
    }

    /// Both words, the upper bound first, neither worse than what the seat saw. A seat with all splits knows them.
    pub fn close(self, seat: BoundsSeat) -> (Bound, Bound)
        requires { IsSeatOf self seat }
        ensures upper { IsIncumbent (model_of self) result.0 }
        ensures lower { IsLowerBound (model_of self) result.1 }
        ensures no_worse { BoundLe result.0 (part_of seat).saw_upper × IsNoLower (part_of seat).saw_lower result.1 }
        ensures whole_upper { splits_of seat ≡ all_splits → result.0 ≡ (part_of seat).offered }
        ensures whole_lower { splits_of seat ≡ all_splits
            → result.1 ≡ raised_above (part_of seat).raised (Bound.At (objective_start (model_of self))) }
    {
        let Bounds { table } = self;
        let BoundsSeat {
            seat: token,
            splits: _,
        } = seat;
        let closed = table.close_with(token);
        let upper = closed.word(0);
        let lower = closed.word(1);
        closed.free();
        (bound_of(upper), bound_of(lower))
    }
}

impl BoundsSeat {
    /// How much of the table the seat has, of 2^32.
    pub fn splits(&self) -> u64
        ensures { result ≡ splits_of self.now }
    {
        self.splits
    }
}
