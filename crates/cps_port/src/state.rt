//! The state that all actors share, as one plain value: what `cps_bounds` and `cps_board` keep in lock-free words.
//!
//! `step` is the definition made to run: each event changes exactly what `after` says, and answers what `seen` says. A
//! row holds its entry and the actor that published it; a seat holds counts, from which the specification reads the
//! entries that the actor took and published (`shared_of`), so that no list is kept per actor. Counts of looks stand
//! still at their type's last value, since a count that wraps would tell of a look that did not take place.
ghost use Rattle.std.specs.Prelude.{◌≡◌, ◌<◌, ◌≤◌, ◌^◌, ◌↔◌, IfOk, IsTrue, length};
ghost use Rattle.cps_model.specs.Start.{objective_start};
ghost use Rattle.cps_port.specs.Entries.{most_rows};
ghost use Rattle.cps_port.specs.Shared.{first_shared, actor_count, board_part, next_row, row_drawn, after, seen, drawn_now, looked_at, counted, IsLawful};
ghost use Rattle.cps_port.specs.Sound.{IsSoundShared, StaysSound};
ghost use Rattle.cps_port.specs.Order.{lesser, greater};

use crate::entry::Entry;
use crate::event::{Event, Seen};
use crate::order::{greater, lesser, raised_to};
use crate::part::{BoundsPart, NO_BOUNDS};
use crate::seat::{NO_ROW, NO_SEAT, Row, Seat};
use cps_eval::objective_start;
use cps_model::Bound;
use cps_validate::ValidModel;
use std::alloc::{AllocError, Global};
use std::marker::Model;

/// The bounds, the board, and what each actor knows of them. Only `new` allocates.
#[derive(Drop)]
pub struct CoreState<'a> {
    model: &'a ValidModel,
    rows: Vec<Row>,
    /// How many draws there were, those past the last row included.
    next: u64,
    seats: Vec<Seat>,
    upper: Bound,
    lower: Bound,
    bounds: Vec<BoundsPart>,
}

impl<'a> Model for CoreState<'a> {
    ghost use Rattle.cps_port.specs.Shared.{Shared};

    ghost Value = { Shared };

    ghost use Rattle.cps_port.specs.Views.{shared_of, IsWhole};

    ghost view = { λ s. shared_of s.model.now s.rows.items s.next s.seats.items s.upper s.lower s.bounds.items };

    ghost invariant = { λ s. IsWhole (shared_of s.model.now s.rows.items s.next s.seats.items s.upper s.lower s.bounds.items) s.rows.items s.seats.items };
}

/// One more, up to the type's last value.
fn counted(count: u64) -> u64
    ensures { result ≡ counted count }
{
    if count < u64::MAX { count + 1 } else { count }
}

/// What an actor sees of its draw.
fn drawn(row: Option<u32>) -> Seen
    ensures { result ≡ drawn_now row }
{
    match row {
        Some(row) => Seen::Row(row),
        None => Seen::Past,
    }
}

/// What an actor sees of its look.
fn looked(entry: Option<Entry>) -> Seen
    ensures { result ≡ looked_at entry }
{
    match entry {
        Some(entry) => Seen::Open(entry),
        None => Seen::Shut,
    }
}

impl<'a> CoreState<'a> {
    /// The state before the first event, of `actors` actors and `rows` rows. The upper bound begins `Infinite`, and the
    /// lower one at the least objective that the domains allow.
    pub fn new(
        alloc: Global,
        model: &'a ValidModel,
        actors: u32,
        rows: u32,
    ) -> Result<CoreState<'a>, AllocError>
        requires { (1 ≤ rows) × (rows ≤ most_rows) }
        ensures first { IfOk result (λ core. core ≡ first_shared model.now actors rows) }
        ensures sound { IfOk result IsSoundShared }
        ensures lasting { IfOk result StaysSound }
    {
        // Reading the model gives the proof its invariant: the model keeps every rule.
        let _ = model.model();
        let start = objective_start(model);
        let rows = vec![in alloc; NO_ROW; rows as usize]?;
        let seats = vec![in alloc; NO_SEAT; actors as usize]?;
        let bounds = vec![in alloc; NO_BOUNDS; actors as usize]?;
        Ok(CoreState {
            model,
            rows,
            next: 0,
            seats,
            upper: Bound::Infinite,
            lower: Bound::At(start),
            bounds,
        })
    }

    /// Makes one step of an actor.
    pub fn step(&mut self, actor: u32, event: Event) -> Seen
        requires actor { actor < actor_count self.old }
        requires lawful { IsLawful self.old actor event }
        ensures state { self.new ≡ after self.old actor event }
        ensures seen { result ≡ seen self.old actor event }
        ensures sound { IsSoundShared self.old × IsSoundShared self.new }
    {
        match event {
            Event::Draw => drawn(self.draw(actor)),
            Event::Publish(entry) => {
                self.publish(actor, entry);
                Seen::Done
            }
            Event::Look => looked(self.look(actor)),
            Event::Offer(value) => Seen::Word(self.offer(actor, value)),
            Event::Raise(bound) => Seen::Word(self.raise(actor, bound)),
            Event::SeeUpper => Seen::Word(self.see_upper(actor)),
            Event::SeeLower => Seen::Word(self.see_lower(actor)),
        }
    }

    /// The upper bound as it stands.
    pub fn upper(&self) -> Bound
        ensures bound { result ≡ self.now.bounds.upper }
        ensures sound { IsSoundShared self.now }
    {
        self.upper
    }

    /// The lower bound as it stands.
    pub fn lower(&self) -> Bound
        ensures { result ≡ self.now.bounds.lower }
    {
        self.lower
    }

    /// Whether an actor drew past the last row.
    pub(crate) fn is_full(&self, actor: u32) -> bool
        requires { actor < actor_count self.now }
        ensures { result ≡ (board_part self.now.board actor).full }
    {
        self.seats[actor as usize].full
    }

    /// Whether there is a row that an actor has not taken.
    pub(crate) fn has_more(&self, actor: u32) -> bool
        requires { actor < actor_count self.now }
        ensures more { IsTrue result ↔ (length (board_part self.now.board actor).taken < length self.now.board.rows) }
        ensures at_most { length (board_part self.now.board actor).taken ≤ length self.now.board.rows }
    {
        (self.seats[actor as usize].taken as usize) < self.rows.len()
    }

    /// The row that is drawn, where one is left.
    pub(crate) fn draw(&mut self, actor: u32) -> Option<u32>
        requires actor { actor < actor_count self.old }
        requires lawful { IsLawful self.old actor Event.Draw }
        ensures state { self.new ≡ after self.old actor Event.Draw }
        ensures row { result ≡ row_drawn self.old.board }
        ensures sound { IsSoundShared self.old × IsSoundShared self.new }
    {
        let mut seat = self.seats[actor as usize];
        let row = self.next;
        self.next = row + 1;
        if row >= self.rows.len() as u64 {
            seat.full = true;
            self.seats[actor as usize] = seat;
            return None;
        }
        seat.drawn = Some(row as u32);
        self.seats[actor as usize] = seat;
        Some(row as u32)
    }

    /// Opens the row that an actor drew, with its entry.
    pub(crate) fn publish(&mut self, actor: u32, entry: Entry)
        requires actor { actor < actor_count self.old }
        requires lawful { IsLawful self.old actor (Event.Publish entry) }
        ensures state { self.new ≡ after self.old actor (Event.Publish entry) }
        ensures sound { IsSoundShared self.old × IsSoundShared self.new }
    {
        let mut seat = self.seats[actor as usize];
        seat.drawn = None;
        self.seats[actor as usize] = seat;
        self.rows[entry.row as usize] = Row {
            published: true,
            owner: actor,
            entry,
        };
    }

    /// The entry of the next row, where it is published.
    pub(crate) fn look(&mut self, actor: u32) -> Option<Entry>
        requires actor { actor < actor_count self.old }
        requires lawful { IsLawful self.old actor Event.Look }
        ensures state { self.new ≡ after self.old actor Event.Look }
        ensures entry { result ≡ next_row self.old.board actor }
        ensures sound { IsSoundShared self.old × IsSoundShared self.new }
    {
        let mut seat = self.seats[actor as usize];
        let row = self.rows[seat.taken as usize];
        if row.published {
            seat.taken += 1;
            self.seats[actor as usize] = seat;
            return Some(row.entry);
        }
        seat.misses = counted(seat.misses);
        self.seats[actor as usize] = seat;
        None
    }

    /// The upper bound, as an actor loads it.
    pub(crate) fn see_upper(&mut self, actor: u32) -> Bound
        requires actor { actor < actor_count self.old }
        ensures state { self.new ≡ after self.old actor Event.SeeUpper }
        ensures bound { result ≡ self.old.bounds.upper }
        ensures sound { IsSoundShared self.old × IsSoundShared self.new }
    {
        let mut part = self.bounds[actor as usize];
        part.saw_upper = self.upper;
        part.upper_loads = counted(part.upper_loads);
        part.upper_last = Some(self.upper);
        self.bounds[actor as usize] = part;
        self.upper
    }

    /// The lower bound, as an actor loads it.
    pub(crate) fn see_lower(&mut self, actor: u32) -> Bound
        requires actor { actor < actor_count self.old }
        ensures state { self.new ≡ after self.old actor Event.SeeLower }
        ensures bound { result ≡ self.old.bounds.lower }
        ensures sound { IsSoundShared self.old × IsSoundShared self.new }
    {
        let mut part = self.bounds[actor as usize];
        part.saw_lower = Some(self.lower);
        part.lower_loads = counted(part.lower_loads);
        part.lower_last = Some(self.lower);
        self.bounds[actor as usize] = part;
        self.lower
    }

    /// Lowers the upper bound to the objective of a solution that an actor found, and answers what it is then.
    pub(crate) fn offer(&mut self, actor: u32, value: i64) -> Bound
        requires actor { actor < actor_count self.old }
        requires lawful { IsLawful self.old actor (Event.Offer value) }
        ensures state { self.new ≡ after self.old actor (Event.Offer value) }
        ensures bound { result ≡ lesser self.old.bounds.upper (Bound.At value) }
        ensures sound { IsSoundShared self.old × IsSoundShared self.new }
    {
        self.upper = lesser(self.upper, Bound::At(value));
        let mut part = self.bounds[actor as usize];
        part.saw_upper = self.upper;
        part.offered = lesser(part.offered, Bound::At(value));
        self.bounds[actor as usize] = part;
        self.upper
    }

    /// Raises the lower bound to one that an actor showed, and answers what it is then.
    pub(crate) fn raise(&mut self, actor: u32, bound: Bound) -> Bound
        requires actor { actor < actor_count self.old }
        requires lawful { IsLawful self.old actor (Event.Raise bound) }
        ensures state { self.new ≡ after self.old actor (Event.Raise bound) }
        ensures bound { result ≡ greater self.old.bounds.lower bound }
        ensures sound { IsSoundShared self.old × IsSoundShared self.new }
    {
        self.lower = greater(self.lower, bound);
        let mut part = self.bounds[actor as usize];
        part.saw_lower = Some(self.lower);
        part.raised = raised_to(part.raised, bound);
        self.bounds[actor as usize] = part;
        self.lower
    }
}
