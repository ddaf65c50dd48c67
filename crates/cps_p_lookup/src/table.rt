//! A table: the values are a row, or none where it is negated.
//!
//! The sign chooses between two rules. A table keeps each subject to the rows that are left (`rows`), and needs a fact
//! against each other row; a negated one takes a row's value from the only column that is open (`bans`), and needs the
//! values of that one row. A table without columns holds, whatever its rows and its sign, and gives nothing.

ghost use Rattle.std.specs.Prelude.{◌≡◌, ◌<◌, length, All, OnOk, IfOk, Ok, true, IsTrue};
ghost use Rattle.cps_rule.specs.Rules.{IsGiven, IsSeen, IsAtRest};
ghost use Rattle.cps_rule.specs.Facts.{GivesGoal};
ghost use Rattle.cps_p_lookup.specs.Resting.{AreTrue};
ghost use Rattle.cps_instance.specs.declared.task.Body.TheVariants.{Table as TableOf};

use crate::bans::look_outside;
use crate::denials::{exclude, fix};
use crate::index::TupleSet;
use crate::numbering::Numbering;
use crate::rows::{Room, look_among};
use cps_enforce::Enforced;
use cps_instance::{Body, Task};
use cps_literal::Atom;
use cps_model::Listed;
use cps_rule::{Hint, Look, Narrowing, Rule};
use cps_trail::{Before, Store};
use std::alloc::{AllocError, Global};

/// The rule of a table.
pub struct Table {
    tuples: TupleSet,
    negated: bool,
    numbering: Numbering,
    room: Room,
}

// Written out, so that crates above do not prove it anew.
impl Drop for Table {
    fn drop(self) {
        let Table {
            tuples: _tuples,
            negated: _negated,
            numbering: _numbering,
            room: _room,
        } = self;
    }
}

impl Table {
    ghost use Rattle.cps_p_lookup.specs.Bodies.{is_table, table_of};

    /// The rule of a table over subjects.
    fn over(alloc: Global, exprs: &[u32], values: &[i64], negated: bool) -> Result<Self, AllocError>
        ensures { IfOk result (λ rule. table_of rule.tuples.exprs rule.tuples.values rule.negated
            ≡ table_of exprs.now values.now negated) }
    {
        let width = exprs.len();
        let exprs = Listed::from_vec(Vec::from_slice(alloc, exprs)?);
        let values = Listed::from_vec(Vec::from_slice(alloc, values)?);
        let tuples = TupleSet::new(alloc, exprs, values)?;
        let numbering = Numbering::new(alloc, tuples.cells(), width)?;
        let room = Room::new(alloc, &numbering)?;
        Ok(Table {
            tuples,
            negated,
            numbering,
            room,
        })
    }

    /// The rule of a body that is `Table`.
    fn new(alloc: Global, body: &Body) -> Result<Self, AllocError>
        requires { IsTrue (is_table body.now) }
        ensures { IfOk result (λ rule. table_of rule.tuples.exprs rule.tuples.values rule.negated ≡ body.now) }
    {
        match body {
            Body::Table {
                exprs,
                values,
                negated,
            } => Table::over(alloc, exprs.as_slice(), values.as_slice(), *negated),
            _ => unreachable!(),
        }
    }

    /// The propagator of a task whose body is `Table`.
    pub fn of(alloc: Global, task: &Task) -> Result<Enforced<Table>, AllocError>
        requires { IsTrue (is_table task.now.body) }
        ensures { IfOk result (λ propagator. propagator ≡ task.now) }
    {
        let rule = Table::new(alloc, &task.body)?;
        let propagator = Enforced::new(alloc, task.enforcement.as_slice(), rule)?;
        Ok(propagator)
    }
}

/// A table whose rows are the allowed ones, or where it is negated the forbidden ones.
#[derive(Clone, Copy)]
struct SignedTable<'a> {
    tuples: &'a TupleSet,
    numbering: &'a Numbering,
    negated: bool,
}

/// What a table gives, or that it cannot hold.
fn look_at(
    store: &Store,
    table: &SignedTable,
    room: &mut Room,
    found: &mut Vec<Narrowing>,
) -> Result<Look, AllocError>
    requires fits { All (λ e. e < length store.now.first) table.now.tuples.now.exprs }
    ensures given { OnOk result (All
        (λ n. IsGiven (TableOf table.now.tuples.now.exprs table.now.tuples.now.values table.now.negated)
        store.now n.target) found.new.items) }
    ensures seen { IfOk result (IsSeen
        (TableOf table.now.tuples.now.exprs table.now.tuples.now.values table.now.negated) store.now) }
    ensures rest { result ≡ Ok Look.Possible → AreTrue store.now found.new.items
        → IsAtRest (TableOf table.now.tuples.now.exprs table.now.tuples.now.values table.now.negated) store.now }
{
    let grid = table.tuples.grid();
    if grid.exprs.is_empty() {
        found.clear();
        return Ok(Look::Possible);
    }
    if table.negated {
        look_outside(store, &grid, found)
    } else {
        look_among(store, table.tuples, table.numbering, room, found)
    }
}

/// Makes the facts those by which a table gives an atom, or by which it cannot hold where there is none to give.
fn justify_at(
    past: &Before,
    table: &SignedTable,
    goal: Option<Atom>,
    row: i64,
    facts: &mut Vec<Atom>,
) -> Result<bool, AllocError>
    requires fits { All (λ e. e < length past.now.first) table.now.tuples.now.exprs }
    ensures { result ≡ Ok true → GivesGoal
        (TableOf table.now.tuples.now.exprs table.now.tuples.now.values table.now.negated) past.now goal facts.new.items }
{
    let grid = table.tuples.grid();
    if grid.exprs.is_empty() {
        return Ok(false);
    }
    if table.negated {
        fix(past, &grid, goal, row, facts)
    } else {
        exclude(past, table.tuples, table.numbering, goal, facts)
    }
}

impl Rule for Table {
    ghost body = { λ t. TableOf t.tuples.exprs t.tuples.values t.negated };

    fn look(&mut self, store: &Store, found: &mut Vec<Narrowing>) -> Result<Look, AllocError> {
        let table = SignedTable {
            tuples: &self.tuples,
            numbering: &self.numbering,
            negated: self.negated,
        };
        look_at(store, &table, &mut self.room, found)
    }

    fn explain(
        &self,
        past: &Before,
        target: Atom,
        hint: Hint,
        facts: &mut Vec<Atom>,
    ) -> Result<bool, AllocError> {
        let table = SignedTable {
            tuples: &self.tuples,
            numbering: &self.numbering,
            negated: self.negated,
        };
        justify_at(past, &table, Some(target), hint.a, facts)
    }

    fn refute(&self, past: &Before, hint: Hint, facts: &mut Vec<Atom>) -> Result<bool, AllocError> {
        let table = SignedTable {
            tuples: &self.tuples,
            numbering: &self.numbering,
            negated: self.negated,
        };
        justify_at(past, &table, None, hint.a, facts)
    }

    fn push_subjects(&self, subjects: &mut Vec<u32>) -> Result<(), AllocError> {
        subjects.extend_from_slice(self.tuples.grid().exprs)
    }
}
