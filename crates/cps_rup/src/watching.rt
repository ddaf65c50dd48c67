//! Two watched atoms for each clause.
//!
//! A clause can become unit or false only by an atom that it watches, so only then is it visited, and it watches another
//! atom from then on if one is left that is not false. Watchers stand in lists by subject and operator. Each has another
//! atom of its clause beside it, and where that one is true nothing of the clause is read (Chu, Harwood and Stuckey,
//! "Cache conscious data structures for Boolean satisfiability solvers", 2009).
//!
//! A proof never drops a clause, and most are of no more use some lines on. So clauses that were proposed lately are
//! propagated to the end before another is visited, as drat-trim does with its core (Wetzler, Heule and Hunt,
//! "DRAT-trim", 2014). Most conflicts come up among them, and the long lists of the others are left alone.
//!
//! All this only proposes clauses to look at, so nothing is said of it but that it is safe and ends.

ghost use Rattle.std.specs.Prelude.{◌<◌};

use crate::arena::Clauses;
use crate::trailed::TrailedDomains;
use cps_domain::Domain;
use cps_literal::{Atom, Op, Truth};
use std::alloc::{AllocError, Global};
use std::mem;

/// How many operators there are.
const OPS: usize = 4;

/// How many lists of watchers a subject has: for each tier one an operator.
const LISTS: usize = 2 * OPS;

/// A clause is recent for so many propagations after it was added or proposed.
const RECENT: u32 = 1000;

/// Which clauses are visited first.
#[derive(Clone, Copy, PartialEq, Eq)]
enum Tier {
    /// Those that were added or proposed lately.
    Recent,
    /// All others.
    Old,
}

/// One of the two watchers of a clause.
#[derive(Clone, Copy)]
struct Watcher {
    /// Another atom of the clause. Where it is true the clause is neither unit nor false.
    blocker: Atom,
    /// Twice the number of the clause, and one more for its second watcher.
    number: u32,
}

/// What a clause watches, and when it was of use.
#[derive(Clone, Copy)]
struct WatchedClause {
    /// The place of the atom of its first watcher.
    first: u32,
    /// That of its second.
    second: u32,
    /// The propagation in which it was added or proposed last.
    used: u32,
}

/// The list of watchers that is being visited.
#[derive(Clone, Copy)]
struct VisitedList {
    number: usize,
    tier: Tier,
}

/// The watchers of all clauses, and the clauses that are proposed.
#[derive(Drop)]
pub(crate) struct Watches {
    alloc: Global,
    /// In the order of the clauses.
    clauses: Vec<WatchedClause>,
    /// The watchers by tier and by what they watch: for each subject one list a tier and operator. A watcher changes
    /// its tier where its clause is read, and so may be in the other for a while.
    lists: Vec<Vec<Watcher>>,
    /// For each subject and operator the place on the trail of the newest change.
    newest: Vec<usize>,
    /// The clauses that are to be looked at, since they may be unit or false.
    proposed: Vec<u32>,
    /// How many propagations were begun.
    propagations: u32,
    /// How many changes have been noted in this one.
    noted: usize,
    /// For how many of them the recent clauses were visited.
    visited_recent: usize,
    /// For how many of them the old ones were.
    visited_old: usize,
}

/// What becomes of a watcher that was visited.
#[derive(Clone, Copy)]
enum Visited {
    /// It stays in its list, like this.
    Stays(Watcher),
    /// It is in another list now.
    Moved,
}

/// What a clause can watch.
#[derive(Clone, Copy)]
enum Choice {
    /// These two places have different atoms that are open.
    Two(u32, u32),
    /// An atom is true.
    Satisfied,
    /// One open atom at most, and no true one.
    Fewer,
}

/// What a domain says of an atom. One without a domain is open.
fn truth(domains: &[Domain], atom: Atom) -> Truth {
    match domains.get(atom.subject as usize) {
        Some(domain) => atom.truth_in(domain),
        None => Truth::Undecided,
    }
}

/// The place of an operator among them all.
fn place_of(op: Op) -> usize
    ensures { result < 4 }
{
    match op {
        Op::Le => 0,
        Op::Ge => 1,
        Op::Eq => 2,
        Op::Ne => 3,
    }
}

/// The number of a subject and operator.
fn slot_of(atom: Atom) -> usize {
    atom.subject as usize * OPS + place_of(atom.op)
}

/// The number of the list of a subject and an operator in a tier.
fn list_of(subject: u32, op: Op, tier: Tier) -> usize {
    let first = subject as usize * LISTS + place_of(op);
    match tier {
        Tier::Recent => first,
        Tier::Old => first + OPS,
    }
}

/// What a clause can watch in the domains.
fn choose(domains: &[Domain], clause: &[Atom]) -> Choice {
    let mut open: Option<(u32, Atom)> = None;
    let mut place = 0;
    for atom in clause {
        match truth(domains, *atom) {
            Truth::No => {}
            Truth::Yes => return Choice::Satisfied,
            Truth::Undecided => match open {
                None => open = Some((place, *atom)),
                Some((first, other)) => {
                    if other != *atom {
                        return Choice::Two(first, place);
                    }
                }
            },
        }
        place = next_place(place);
    }
    Choice::Fewer
}

/// The place after another, as far as there are numbers.
fn next_place(place: u32) -> u32 {
    place.saturating_add(1)
}

/// An atom that is not false, other than the one that is watched already, and its place.
fn find_other(domains: &[Domain], clause: &[Atom], watched: Atom) -> Option<(u32, Atom)> {
    let mut place = 0;
    for atom in clause {
        if *atom != watched && !truth(domains, *atom).is_no() {
            return Some((place, *atom));
        }
        place = next_place(place);
    }
    None
}

impl Watches {
    /// No subject and no clause.
    pub(crate) fn new(alloc: Global) -> Self {
        Watches {
            alloc,
            clauses: Vec::new(alloc),
            lists: Vec::new(alloc),
            newest: Vec::new(alloc),
            proposed: Vec::new(alloc),
            propagations: 0,
            noted: 0,
            visited_recent: 0,
            visited_old: 0,
        }
    }

    /// Adds a subject.
    pub(crate) fn add_subject(&mut self) -> Result<(), AllocError> {
        for _ in 0..LISTS {
            self.lists.push(Vec::new(self.alloc))?;
        }
        self.newest.extend_from_slice(&[0; OPS])?;
        Ok(())
    }

    /// Adds the next clause. The domains are those that stay for good. Too many clauses are answered as if memory had
    /// run out.
    pub(crate) fn add_clause(
        &mut self,
        domains: &[Domain],
        clause: &[Atom],
    ) -> Result<(), AllocError> {
        let Ok(number) = u32::try_from(self.clauses.len()) else {
            return Err(AllocError);
        };
        let Some(one) = number.checked_mul(2) else {
            return Err(AllocError);
        };
        let choice = choose(domains, clause);
        let (first, second) = match choice {
            Choice::Two(first, second) => (first, second),
            Choice::Satisfied | Choice::Fewer => (0, 0),
        };
        self.clauses.push(WatchedClause {
            first,
            second,
            used: self.propagations,
        })?;
        match choice {
            Choice::Two(_, _) => {
                self.add_watcher(one, clause, first, second)?;
                self.add_watcher(one | 1, clause, second, first)
            }
            Choice::Satisfied => Ok(()),
            Choice::Fewer => self.propose(number),
        }
    }

    /// Puts a watcher into the list of the atom at a place of its clause, with the atom at another place beside it.
    fn add_watcher(
        &mut self,
        number: u32,
        clause: &[Atom],
        place: u32,
        other: u32,
    ) -> Result<(), AllocError> {
        let (Some(atom), Some(blocker)) = (clause.get(place as usize), clause.get(other as usize))
        else {
            return Ok(());
        };
        let blocker = *blocker;
        let list = list_of(atom.subject, atom.op, Tier::Recent);
        self.push(list, Watcher { blocker, number })
    }

    /// Puts a watcher at the end of a list.
    fn push(&mut self, list: usize, watcher: Watcher) -> Result<(), AllocError> {
        if list < self.lists.len() {
            self.lists[list].push(watcher)?;
        }
        Ok(())
    }

    /// The clauses that are to be looked at.
    pub(crate) fn proposed(&self) -> &[u32] {
        self.proposed.as_slice()
    }

    /// Forgets the clauses that were to be looked at.
    pub(crate) fn clear_proposed(&mut self) {
        self.proposed.clear();
    }

    /// Has a clause looked at.
    fn propose(&mut self, clause: u32) -> Result<(), AllocError> {
        let place = clause as usize;
        if place < self.clauses.len() {
            self.clauses[place].used = self.propagations;
        }
        self.proposed.push(clause)?;
        Ok(())
    }

    /// Has a clause alone looked at: one that is false, and may be so for good.
    pub(crate) fn propose_only(&mut self, clause: u32) -> Result<(), AllocError> {
        self.proposed.clear();
        self.propose(clause)
    }

    /// Begins a propagation: each change on the trail is to be visited.
    pub(crate) fn begin(&mut self) {
        self.propagations = self.propagations.saturating_add(1);
        self.noted = 0;
        self.visited_recent = 0;
        self.visited_old = 0;
    }

    /// Notes for each subject and operator its newest change.
    fn note_changes(&mut self, domains: &TrailedDomains) {
        for place in self.noted..domains.changes() {
            if let Some(change) = domains.change(place) {
                self.note(change, place);
            }
        }
        self.noted = domains.changes();
    }

    /// Notes a change as the newest.
    fn note(&mut self, change: Atom, place: usize) {
        let slot = slot_of(change);
        if slot < self.newest.len() {
            self.newest[slot] = place;
        }
    }

    /// Whether a change is the newest by its subject and operator.
    fn is_newest(&self, change: Atom, place: usize) -> bool {
        match self.newest.get(slot_of(change)) {
            Some(newest) => *newest == place,
            None => false,
        }
    }

    /// Visits the recent clauses for the next change in turn, or where none is left the old ones for theirs. Answers
    /// whether there was a change.
    pub(crate) fn visit_next(
        &mut self,
        domains: &TrailedDomains,
        clauses: &Clauses,
    ) -> Result<bool, AllocError> {
        self.note_changes(domains);
        let place = self.visited_recent;
        if let Some(change) = domains.change(place) {
            self.visited_recent = place.saturating_add(1);
            if self.is_newest(change, place) {
                self.visit(domains.as_slice(), clauses, change, Tier::Recent)?;
            }
            return Ok(true);
        }
        let place = self.visited_old;
        let Some(change) = domains.change(place) else {
            return Ok(false);
        };
        self.visited_old = place.saturating_add(1);
        if self.is_newest(change, place) {
            self.visit(domains.as_slice(), clauses, change, Tier::Old)?;
        }
        Ok(true)
    }

    /// Visits the clauses of a tier that watch an atom which may have become false by a change, and proposes those that
    /// are left no other atom to watch. A later change alike makes up for this one.
    fn visit(
        &mut self,
        domains: &[Domain],
        clauses: &Clauses,
        change: Atom,
        tier: Tier,
    ) -> Result<(), AllocError> {
        let subject = change.subject;
        // An end that did not move makes no comparison with it false.
        if change.op != Op::Le {
            self.visit_list(domains, clauses, subject, Op::Le, tier)?;
        }
        if change.op != Op::Ge {
            self.visit_list(domains, clauses, subject, Op::Ge, tier)?;
        }
        self.visit_list(domains, clauses, subject, Op::Eq, tier)?;
        if is_fixed(domains, subject) {
            self.visit_list(domains, clauses, subject, Op::Ne, tier)?;
        }
        Ok(())
    }

    /// Visits the clauses of a list of watchers.
    fn visit_list(
        &mut self,
        domains: &[Domain],
        clauses: &Clauses,
        subject: u32,
        op: Op,
        tier: Tier,
    ) -> Result<(), AllocError> {
        let number = list_of(subject, op, tier);
        if number >= self.lists.len() {
            return Ok(());
        }
        let mut list = mem::replace(&mut self.lists[number], Vec::new(self.alloc));
        let visited = self.visit_watchers(
            domains,
            clauses,
            &mut list,
            VisitedList { number, tier },
        );
        if number < self.lists.len() {
            self.lists[number] = list;
        }
        visited
    }

    /// Visits the clauses of watchers that were taken out of a list, and keeps those that stay there.
    fn visit_watchers(
        &mut self,
        domains: &[Domain],
        clauses: &Clauses,
        list: &mut Vec<Watcher>,
        visited: VisitedList,
    ) -> Result<(), AllocError> {
        let mut kept = 0;
        for at in 0..list.len() {
            let Some(watcher) = list.get(at).copied() else {
                break;
            };
            let stays = if truth(domains, watcher.blocker).is_yes() {
                Visited::Stays(watcher)
            } else {
                self.visit_watcher(domains, clauses, watcher, visited)?
            };
            if let Visited::Stays(watcher) = stays {
                kept = put(list, kept, watcher);
            }
        }
        list.truncate(kept);
        Ok(())
    }

    /// Moves a watcher to the list of another atom if its own is false and another is left, and proposes its clause if
    /// none is. Where it is among the recent ones and its clause is old, it goes to the old ones, whose turn is yet to
    /// come.
    fn visit_watcher(
        &mut self,
        domains: &[Domain],
        clauses: &Clauses,
        watcher: Watcher,
        visited: VisitedList,
    ) -> Result<Visited, AllocError> {
        let number = watcher.number / 2;
        let place = number as usize;
        if place >= clauses.len() || place >= self.clauses.len() {
            return Ok(Visited::Stays(watcher));
        }
        let clause = clauses.clause(place);
        let watched = self.clauses[place];
        let (own, other) = sides(watched, watcher);
        let (Some(own), Some(blocker)) = (clause.get(own as usize), clause.get(other as usize))
        else {
            return Ok(Visited::Stays(watcher));
        };
        let (own, blocker) = (*own, *blocker);
        let watcher = Watcher {
            blocker,
            number: watcher.number,
        };
        let tier = self.tier_of(watched);
        let is_late = visited.tier == Tier::Recent && tier == Tier::Old;
        if is_late || truth(domains, blocker).is_yes() || !truth(domains, own).is_no() {
            return self.move_to(own, tier, watcher, visited);
        }
        match find_other(domains, clause, blocker) {
            Some((other, atom)) => {
                self.clauses[place] = watching_at(watched, watcher, other);
                self.move_to(atom, tier, watcher, visited)
            }
            None => {
                self.propose(number)?;
                self.move_to(own, Tier::Recent, watcher, visited)
            }
        }
    }

    /// Which tier a clause is of.
    fn tier_of(&self, clause: WatchedClause) -> Tier {
        if clause.used.saturating_add(RECENT) < self.propagations {
            Tier::Old
        } else {
            Tier::Recent
        }
    }

    /// Moves a watcher from the list that is being visited to that of an atom in a tier.
    fn move_to(
        &mut self,
        atom: Atom,
        tier: Tier,
        watcher: Watcher,
        visited: VisitedList,
    ) -> Result<Visited, AllocError> {
        let list = list_of(atom.subject, atom.op, tier);
        if list == visited.number {
            return Ok(Visited::Stays(watcher));
        }
        self.push(list, watcher)?;
        Ok(Visited::Moved)
    }
}

/// The places of a watcher's own atom and of the other one that its clause watches.
fn sides(clause: WatchedClause, watcher: Watcher) -> (u32, u32) {
    if watcher.number % 2 == 0 {
        (clause.first, clause.second)
    } else {
        (clause.second, clause.first)
    }
}

/// A clause one of whose watchers watches the atom at another place.
fn watching_at(clause: WatchedClause, watcher: Watcher, place: u32) -> WatchedClause {
    if watcher.number % 2 == 0 {
        WatchedClause {
            first: place,
            ..clause
        }
    } else {
        WatchedClause {
            second: place,
            ..clause
        }
    }
}

/// Puts a watcher at a place of a list, and answers the place behind it.
fn put(list: &mut [Watcher], place: usize, watcher: Watcher) -> usize {
    if place < list.len() {
        list[place] = watcher;
    }
    place.saturating_add(1)
}

/// Whether a subject has a domain of one value.
fn is_fixed(domains: &[Domain], subject: u32) -> bool {
    match domains.get(subject as usize) {
        Some(domain) => domain.is_fixed(),
        None => false,
    }
}
