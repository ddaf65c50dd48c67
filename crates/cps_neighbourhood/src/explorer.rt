//! The turn of a neighbourhood worker, as long as every allocation succeeds.
//!
//! `Frame::steps` does a turn up to a decision. When a decision is due, a round is begun if none is under way. An
//! assumption of the model that is undecided comes first, then the round's next open decision, and then the brancher's
//! choice. After a learnt clause the brancher hears it, and the round ends or goes on in the same turn; the brancher's
//! wish to restart is not followed, since the round would only be decided once more. After any other turn the store may
//! have gone back, so the round looks for open decisions from its first one on.

ghost use Rattle.std.specs.Prelude.{◌≡◌, ◌↔◌, ℕ, ◌+◌, ◌<◌, ◌≤◌, ◌^◌, min, length, true, false, Ok, IfOk, OnOk, IsTrue, List, [], ◌∷◌, ◌++◌, None, Some};
ghost use Rattle.cps_model.specs.declared.bound.Bound.{Bound as BoundOf};
ghost use Rattle.cps_literal.specs.declared.atom.Atom.{Atom as AtomOf};
ghost use Rattle.cps_clauses.specs.declared.journal.JournalItem.{JournalItem as JournalItemOf};
ghost use Rattle.cps_trail.specs.Trail.{Trail};
ghost use Rattle.cps_instance.specs.Problem.{variable_count};
ghost use Rattle.cps_branch.specs.Fixed.{AreFixed};
ghost use Rattle.cps_branch.specs.SetAside.{AreFixedAside};
ghost use Rattle.cps_search.specs.Keeps.{Keeps};
ghost use Rattle.cps_search.specs.Assumptions.{NoneIsOpen};
ghost use Rattle.cps_search.specs.Searches.{IsSettled, IsSoundSearch};
ghost use Rattle.cps_search.specs.Ends.{Decides, IsOver, round_count, round_conflicts};
ghost use Rattle.cps_search.specs.Moves.{decided, moved};
ghost use Rattle.cps_neighbourhood.specs.Rounds.{ChoosesInRound, IsFirstOpenDecision, NoneOpen};
ghost use Rattle.cps_neighbourhood.specs.Nears.{BeginsNear, DecidesInRound, HeardClause, TakesNearTurn, draws_now, round_now};
ghost use Rattle.cps_neighbourhood.specs.Standing.{IsRoundEnd, begun, held_to, round_of};
ghost use Rattle.cps_neighbourhood.specs.Exploring.{IsExploring, KeepsRest, RoundEnds, RoundGoesOn, near_of};

use crate::aim::Aim;
use crate::draws::draws_of;
use crate::round::{Progress, ROUND_CONFLICTS};
use cps_branch::ActivityBrancher;
use cps_clauses::JournalItem;
use cps_instance::Instance;
use cps_literal::Atom;
use cps_port::Port;
use cps_propagate::{Engine, Propagator};
use cps_search::{Frame, Phase, Turn, decide_assumption, decide_next, hear_last, still_kept};
use rand_pcg::Lcg64Xsh32;
use std::alloc::{AllocError, Global};

/// How many rounds a worker does that was given `conflicts`.
fn round_count(conflicts: u64) -> u64
    ensures { result ≡ round_count conflicts }
{
    1 + conflicts / ROUND_CONFLICTS
}

/// By what a worker's rounds go: the number of conflicts that it was given, and the draws.
#[derive(Drop)]
pub(crate) struct Course {
    pub conflicts: u64,
    pub draws: Lcg64Xsh32,
}

/// A neighbourhood worker while it has memory.
#[derive(Drop)]
pub(crate) struct Explorer<'a, P: Propagator> {
    alloc: Global,
    pub frame: Frame<'a, P>,
    pub brancher: ActivityBrancher,
    /// How many of the store's first entries are those that the brancher saw last.
    pub kept: usize,
    /// The budget of conflicts that it was given. It sets the number of rounds.
    pub conflicts: u64,
    /// The generator by whose words variables are freed.
    pub draws: Lcg64Xsh32,
    /// The solution that the next round takes up.
    pub aim: Aim,
    /// How many rounds ended.
    pub rounds: u64,
    /// The round that is under way, or the last one.
    pub round: Progress,
    /// Whether a round is under way.
    pub in_round: bool,
}

impl<'a, P: Propagator> Explorer<'a, P> {
    /// A worker that knows nothing yet, on one of the streams of a seed.
    pub fn new(
        alloc: Global,
        instance: Instance<'a>,
        engine: Engine<P>,
        course: Course,
        gap: u64,
    ) -> Result<Self, AllocError>
        requires tasks { engine.tasks ≡ instance.tasks }
        requires conflicts { course.conflicts ≤ 10 ^ 9 }
        ensures begins { IfOk result (λ x. BeginsNear instance.entry gap course.conflicts course.draws (near_of x)) }
        ensures exploring { IfOk result (λ x. IsExploring x) }
    {
        let Course { conflicts, draws } = course;
        let brancher = ActivityBrancher::of(alloc, &instance)?;
        let aim = Aim::new(alloc, instance.variable_count())?;
        let frame = Frame::new(alloc, instance, engine, None, gap, None)?;
        Ok(Explorer {
            alloc,
            frame,
            brancher,
            kept: 0,
            conflicts,
            draws,
            aim,
            rounds: 0,
            round: Progress::none(alloc),
            in_round: false,
        })
    }

    /// Begins a round if none is under way: it takes up the aim.
    fn enter(&mut self) -> Result<(), AllocError>
        requires exploring { IsExploring self.old }
        ensures near { OnOk result (near_of self.new ≡ record (near_of self.old) {
          round = Some (round_now (near_of self.old));
          draws = draws_now (near_of self.old);
        }) }
        ensures in_round { OnOk result (IsTrue self.new.in_round) }
        ensures exploring { OnOk result (IsExploring self.new) }
    {
        // Reading the entries gives the proof the store's invariant.
        let _ = self.frame.store().entries();
        if !self.in_round {
            self.round = Progress::begin(self.alloc, &self.aim, &mut self.draws)?;
            self.in_round = true;
        }
        Ok(())
    }

    /// Decides what the round has open, where a decision is due.
    fn decide_open(&mut self, atom: Atom) -> Result<(), AllocError>
        requires exploring { IsExploring self.old }
        requires in_round { IsTrue self.old.in_round }
        requires due { self.old.frame.phase ≡ Phase.Deciding }
        requires none_open { NoneIsOpen self.old.frame.instance.model.assumptions self.old.frame.store }
        requires open { IsFirstOpenDecision self.old.round.decisions.items self.old.frame.store atom }
        requires begun { begun self.old.round ≡ self.old.frame.store.level }
        ensures near { OnOk result (near_of self.new ≡ record (near_of self.old) {
          search = moved self.old.frame (decided self.old.frame.store atom) self.old.frame.rested;
        }) }
        ensures exploring { OnOk result (IsExploring self.new) }
    {
        self.frame.decide(atom)?;
        self.round.held = self.frame.store().level();
        Ok(())
    }

    /// Decides the first assumption that is undecided, where a decision is due. Answers false, and changes nothing,
    /// where none is.
    fn assume(&mut self) -> Result<bool, AllocError>
        requires exploring { IsExploring self.old }
        requires in_round { IsTrue self.old.in_round }
        requires due { self.old.frame.phase ≡ Phase.Deciding }
        ensures decides { result ≡ Ok true → DecidesInRound (near_of self.old) (near_of self.new) }
        ensures none { result ≡ Ok false → (self.new ≡ self.old)
            × NoneIsOpen self.old.frame.instance.model.assumptions self.old.frame.store }
        ensures exploring { OnOk result (IsExploring self.new) }
    {
        if !decide_assumption(&mut self.frame)? {
            return Ok(false);
        }
        self.round.assumed = self.frame.store().level();
        Ok(true)
    }

    /// Decides what the brancher chooses, where no assumption is undecided and the round has nothing open.
    fn choose(&mut self) -> Result<(), AllocError>
        requires exploring { IsExploring self.old }
        requires in_round { IsTrue self.old.in_round }
        requires none_open { NoneIsOpen self.old.frame.instance.model.assumptions self.old.frame.store }
        requires settled { IsSettled self.old.frame }
        requires due { self.old.frame.phase ≡ Phase.Deciding }
        requires left_open { AreFixed self.old.frame.store (variable_count self.old.frame.instance) → ⊥ }
        requires none { NoneOpen self.old.round.decisions.items self.old.frame.store }
        ensures decides { OnOk result (DecidesInRound (near_of self.old) (near_of self.new)) }
        ensures exploring { OnOk result (IsExploring self.new) }
    {
        let seen = self.frame.store().entries().len();
        decide_next(&mut self.frame, &mut self.brancher, self.kept)?;
        self.kept = seen;
        Ok(())
    }

    /// Decides an assumption, or else in the round under way, which may begin with that.
    fn decide(&mut self) -> Result<(), AllocError>
        requires exploring { IsExploring self.old }
        requires settled { IsSettled self.old.frame }
        requires due { self.old.frame.phase ≡ Phase.Deciding }
        requires left_open { AreFixed self.old.frame.store (variable_count self.old.frame.instance) → ⊥ }
        ensures decides { OnOk result (DecidesInRound (near_of self.old) (near_of self.new)) }
        ensures exploring { OnOk result (IsExploring self.new) }
    {
        self.enter()?;
        if self.assume()? {
            return Ok(());
        }
        match self.round.next_open(self.frame.store()) {
            Some(atom) => self.decide_open(atom),
            None => self.choose(),
        }
    }

    /// Ends the round with the clause that was learnt last, and goes back to level 0; or goes on in it.
    fn end_or_go_on(&mut self)
        requires few { self.old.rounds < 2 ^ 32 }
        requires learnt { self.old.round.learnt < round_conflicts }
        ensures ends { IsRoundEnd self.old.round self.old.frame.store.level → RoundEnds self.old self.new }
        ensures goes_on { (IsRoundEnd self.old.round self.old.frame.store.level → ⊥) → RoundGoesOn self.old self.new }
        ensures rest { KeepsRest self.old self.new }
        ensures brancher { (self.new.brancher ≡ self.old.brancher) × (self.new.kept ≡ self.old.kept) }
        ensures sound { self.old.frame.refused ≡ false → IsSoundSearch self.old.frame → IsSoundSearch self.new.frame }
    {
        let back = self.frame.store().level();
        if self.round.is_ended_at(back) {
            self.frame.restart();
            self.rounds += 1;
            self.in_round = false;
        } else {
            self.round.count_learnt(back);
        }
    }

    /// After a clause was learnt: the brancher hears it, and the round ends or goes on.
    fn hear(&mut self)
        requires few { self.old.rounds < 2 ^ 32 }
        requires learnt { self.old.round.learnt < round_conflicts }
        ensures heard { (earlier : List JournalItemOf) (clause : List AtomOf) (below : BoundOf)
            → self.old.frame.base.journal ≡ earlier ++ JournalItem.Learnt clause below ∷ []
            → HeardClause clause self.old.brancher self.new.brancher }
        ensures ends { IsRoundEnd self.old.round self.old.frame.store.level → RoundEnds self.old self.new }
        ensures goes_on { (IsRoundEnd self.old.round self.old.frame.store.level → ⊥) → RoundGoesOn self.old self.new }
        ensures rest { KeepsRest self.old self.new }
        ensures kept { self.new.kept ≡ min self.old.kept (length self.new.frame.store.entries) }
        ensures size { length self.new.brancher.activities ≡ length self.old.brancher.activities }
        ensures saw { (s : Trail) (k : ℕ)
            → AreFixedAside (length self.old.brancher.activities) self.old.brancher.aside s k
            → AreFixedAside (length self.new.brancher.activities) self.new.brancher.aside s k }
        ensures sound { self.old.frame.refused ≡ false → IsSoundSearch self.old.frame → IsSoundSearch self.new.frame }
    {
        // A wish to restart is not followed: the round would decide the same once more.
        let _ = hear_last(&mut self.brancher, self.frame.clauses());
        self.end_or_go_on();
        self.kept = still_kept(self.frame.store(), self.kept);
    }

    /// Notes what is left after a turn that neither decided nor learnt: the store may have lost its last entries.
    fn note_backjump(&mut self)
        ensures kept { self.new.kept ≡ min self.old.kept (length self.new.frame.store.entries) }
        ensures held { (self.new.round.assumed ≡ min self.old.round.assumed self.old.frame.store.level)
            × (self.new.round.held ≡ held_to self.old.round self.old.frame.store.level) }
        ensures place { self.new.round.place ≡ 0 }
        ensures rest { near_of self.new ≡ near_of self.old }
        ensures decisions { self.new.round.decisions.items ≡ self.old.round.decisions.items }
        ensures learnt { self.new.round.learnt ≡ self.old.round.learnt }
        ensures same { (self.new.aim ≡ self.old.aim) × (self.new.in_round ≡ self.old.in_round) }
    {
        let store = self.frame.store();
        self.kept = still_kept(store, self.kept);
        self.round.go_back(store.level());
    }

    /// Takes one turn. If all rounds are done it is the last one, which only looks at the two bounds.
    pub fn turn<Q: Port>(&mut self, port: &mut Q) -> Result<Turn, AllocError>
        requires exploring { IsExploring self.old }
        requires running { IsOver self.old.frame.phase → ⊥ }
        requires model { Q.model port.old ≡ self.old.frame.instance.model }
        requires imported { self.old.frame.imported ≤ length (Q.part port.old).board.taken }
        ensures keeps { Keeps Q.model Q.rows Q.stays port.old port.new }
        ensures turn { IfOk result (λ turn. TakesNearTurn (near_of self.old) (near_of self.new)
            (Q.rows port.old) (Q.part port.old) (Q.part port.new) turn) }
        ensures exploring { OnOk result (IsExploring self.new) }
    {
        if self.rounds == round_count(self.conflicts) {
            return Ok(self.frame.end_rounds(port));
        }
        match self.frame.steps(port)? {
            None => {
                self.decide()?;
                Ok(Turn::Decided)
            }
            Some(turn) => match turn {
                Turn::Learnt => {
                    self.hear();
                    Ok(Turn::Learnt)
                }
                other => {
                    self.note_backjump();
                    Ok(other)
                }
            },
        }
    }
}
