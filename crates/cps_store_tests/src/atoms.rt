//! Numbers for atoms, and clauses of them.

use cps_literal::{Atom, Clause, LiteralTable, Op, normal_clause};
use std::alloc::{AllocError, Global};
use std::process::Abort;
use std::test::Fail;

/// An atom; a table, which may call no function, is written by it.
macro_rules! atom {
    ($subject:expr, $op:ident, $value:expr) => {
        Atom {
            subject: $subject,
            op: Op::$op,
            value: $value,
        }
    };
}

/// An atom, and the number that it is given after those before it.
struct Row {
    atom: Atom,
    number: usize,
}

static NUMBERED: [Row; 3] = [
    Row {
        atom: atom!(0, Le, 3),
        number: 0,
    },
    Row {
        atom: atom!(0, Ge, 4),
        number: 1,
    },
    Row {
        atom: atom!(0, Le, 3),
        number: 0,
    },
];

fn assert_numbers(rt: &impl Abort, table: &mut LiteralTable, rows: &[Row]) -> Result<(), Fail> {
    for (place, row) in rows.iter().enumerate() {
        let number = table.number(row.atom)?;
        assert!(rt; number == row.number, "row {place}");
    }
    Ok(())
}

#[test]
fn an_atom_keeps_its_number(rt: HostRuntime) -> Result<(), Fail> {
    let mut table = LiteralTable::new(rt.alloc());
    assert_numbers(&rt, &mut table, &NUMBERED)
}

#[test]
fn the_opposite_of_at_most_is_at_least_one_more(rt: HostRuntime) {
    assert!(rt; atom!(0, Le, 3).negate() == atom!(0, Ge, 4));
}

/// Whether a clause of the atoms has just these.
fn is_kept(alloc: Global, atoms: &[Atom]) -> Result<bool, AllocError> {
    let clause = Clause::from_slice(alloc, atoms)?;
    Ok(clause.as_slice() == atoms)
}

/// The same, and whether their normal form is as wanted.
fn has_normal_form(alloc: Global, atoms: &[Atom], wanted: &[Atom]) -> Result<bool, AllocError> {
    let is_kept = is_kept(alloc, atoms)?;
    let clause = normal_clause(alloc, atoms)?;
    Ok(is_kept && clause.as_slice() == wanted)
}

static SHORT: [Atom; 3] = [atom!(0, Le, 3), atom!(0, Le, 1), atom!(0, Le, 3)];

static LONG: [Atom; 10] = [
    atom!(2, Ne, 5),
    atom!(1, Ge, 7),
    atom!(2, Eq, 5),
    atom!(1, Ge, 6),
    atom!(2, Le, 4),
    atom!(0, Eq, 1),
    atom!(2, Eq, 6),
    atom!(1, Le, 2),
    atom!(0, Eq, 0),
    atom!(1, Le, 3),
];

static SORTED: [Atom; 6] = [
    atom!(0, Eq, 0),
    atom!(0, Eq, 1),
    atom!(1, Le, 3),
    atom!(1, Ge, 6),
    atom!(2, Eq, 5),
    atom!(2, Ne, 5),
];

#[test]
fn normal_forms_are_sorted_with_no_atom_that_implies_another(rt: HostRuntime) -> Result<(), Fail> {
    assert!(rt; has_normal_form(rt.alloc(), &SHORT, &[atom!(0, Le, 3)])?);
    assert!(rt; has_normal_form(rt.alloc(), &LONG, &SORTED)?);
    Ok(())
}
