//! Storing and loading the words of a row.
ghost use Rattle.std.specs.Prelude.{◌≡◌, ℕ, ◌+◌, ◌*◌, ◌<◌, ◌≤◌, [], Some, None};
ghost use lib.ListN.{get_elem?};
ghost use mathlib.Core.Option.{some};
ghost use Rattle.cps_port.specs.declared.entry.Entry.{Entry as EntryOf};
ghost use Rattle.cps_port.specs.Entries.{entry_of, most_rows, IsSoundEntry};
ghost use Rattle.cps_port.specs.Parts.{with_mine};
ghost use Rattle.cps_board.specs.Coding.{entry_words, IsCoded, IsCodedEntry};
ghost use Rattle.cps_board.specs.Rows.{with_part, filling};

use crate::coding::{atom_of, head_word, number_word};
use crate::plays::{Publish, Put, Read};
use crate::rule::OpenRows;
use crate::view::View;
use atomic_table::{Seat, Shared};
use cps_literal::{Atom, Op};
use cps_model::Bound;
use cps_port::word::{bound_of, word_of};
use cps_port::{Entry, MOST_ATOMS};
use cps_validate::ValidModel;

/// The words of a row: its flag, the clause's length, its bound, and two for each atom. Word 0 of the table counts the
/// draws, so row r begins with its flag at word 35 r + 1.
pub const ROW_WORDS: usize = 3 + 2 * MOST_ATOMS;

/// What stands in the places that a clause leaves free.
const BLANK: Atom = Atom {
    subject: 0,
    op: Op::Le,
    value: 0,
};

/// Stores a clause in a row that the seat drew, no more words than it needs, and opens the row.
pub fn fill(
    shared: &Shared<(), View, ValidModel, OpenRows>,
    seat: &mut Seat<(), View>,
    row: u32,
    below: Bound,
    clause: &[Atom],
)
    requires own { seat.old.table_id ≡ shared.now.table_id }
    requires inside { (row < shared.now.table_id.slots) × (shared.now.table_id.slots ≤ most_rows)
        × (shared.now.table_id.words ≡ 35 * shared.now.table_id.slots + 1) }
    requires part { 0 < seat.old.me.0.splits }
    requires drawn { (seat.old.me.0.part.drawn ≡ Some row) × (seat.old.me.0.written ≡ []) }
    requires coded { IsCoded below clause.now }
    requires sound { IsSoundEntry shared.now.key (entry_of row below clause.now) }
    ensures own { (seat.new.table_id ≡ seat.old.table_id) × (seat.new.id ≡ seat.old.id) }
    ensures shared { seat.new.me ≡ (
      with_part (filling seat.old.me.0 (entry_words below clause.now))
          (with_mine seat.old.me.0.part (entry_of row below clause.now)),
      seat.old.me.1,
    ) }
{
    let base = ROW_WORDS * row as usize;
    shared.store::<Put>(seat, base + 2, clause.len() as u64);
    shared.store::<Put>(seat, base + 3, word_of(below));
    for (i, atom) in clause.iter().enumerate() {
        shared.store::<Put>(seat, base + (2 * i + 4), head_word(atom));
        shared.store::<Put>(seat, base + (2 * i + 5), number_word(atom));
    }
    shared.store::<Publish>(seat, base + 1, 1);
}

/// Loads the entry of a row that the seat took, no more words than it has.
pub fn read_row(
    shared: &Shared<(), View, ValidModel, OpenRows>,
    seat: &mut Seat<(), View>,
    row: u32,
) -> Entry
    requires own { seat.old.table_id ≡ shared.now.table_id }
    requires inside { (row < shared.now.table_id.slots) × (shared.now.table_id.slots ≤ most_rows)
        × (shared.now.table_id.words ≡ 35 * shared.now.table_id.slots + 1) }
    requires part { 0 < seat.old.me.0.splits }
    requires taken { (e : EntryOf) × (get_elem? seat.old.me.0.part.taken row ≡ some e) × (e.row ≡ row)
        × IsCodedEntry e }
    ensures own { (seat.new.table_id ≡ seat.old.table_id) × (seat.new.id ≡ seat.old.id) × (seat.new.me ≡ seat.old.me) }
    ensures entry { get_elem? seat.old.me.0.part.taken row ≡ some result }
{
    let base = ROW_WORDS * row as usize;
    let len = shared.load::<Read>(seat, base + 2);
    let below = shared.load::<Read>(seat, base + 3);
    let mut atoms = [BLANK; MOST_ATOMS];
    for i in 0..len as usize {
        let head = shared.load::<Read>(seat, base + (2 * i + 4));
        let number = shared.load::<Read>(seat, base + (2 * i + 5));
        atoms[i] = atom_of(head, number);
    }
    Entry {
        row,
        below: bound_of(below),
        len: len as u32,
        atoms,
    }
}
