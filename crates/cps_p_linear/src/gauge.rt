//! What a long sum remembers from visit to visit.
//!
//! The ends of each term's subject are kept with the two ends of the sum. At a visit those are read anew of which an
//! entry came or went since the last one, so that a visit costs what changed. The entries that came are walked, if
//! there are fewer of them than of terms. Of those that went nothing is left: a subject was read after them if the last
//! entry about it came behind those that stand.
ghost use Rattle.std.specs.Prelude.{◌≡◌, ℕ, ◌+◌, ◌<◌, ◌≤◌, ◌^◌, pos, ◌+ℤ◌, ◌-ℤ◌, ◌≤ℤ◌, unsigned_abs, true, false, List, length, slice_index_or, IsTrue, Ok, IfOk, OnOk, IfSome, All};
ghost use Rattle.cps_instance.specs.declared.term.Term.{Term as TermOf};
ghost use Rattle.cps_trail.specs.Trail.{Trail, IsLastOn};
ghost use Rattle.cps_propagate.specs.Recalling.{IsRecalled, Recalls};
ghost use Rattle.cps_p_linear.specs.Ends.{AreMeasurable};
ghost use Rattle.cps_p_linear.specs.Spreading.{IsSumNow};
ghost use Rattle.cps_p_linear.specs.Rooms.{FitsWidest};
ghost use Rattle.cps_p_linear.specs.Passing.{IsSumInRange};
ghost use Rattle.cps_p_linear.specs.Gauging.{memory_of, read_of, IsGauge, IsGaugeOf, IsHeld, IsDue, IsReadBy, IsFresh, RecallsNow, Renews};

use crate::ends::{Ends, Spread, ends_now, measure, spread_now, term_ends, width};
use crate::places::Places;
use crate::sum::SumTask;
use cps_instance::Term;
use cps_trail::Store;
use std::alloc::{AllocError, Global};

/// A sum of no more terms is read whole at each visit.
const SHORT: usize = 16;

/// The ends of a sum's terms, as they were read.
#[derive(Drop)]
pub(crate) struct Gauge {
    /// Whether anything was read.
    pub(crate) is_read: bool,
    /// By place, the ends of the values of the term's subject.
    pub(crate) values: Vec<Ends>,
    /// By place, how many entries there were up to the last one about the subject.
    pub(crate) since: Vec<usize>,
    /// How many entries there were, but for those that went since.
    pub(crate) count: usize,
    /// How many entries there were when the latest was read.
    pub(crate) newest: usize,
    /// The ends of the sum, and a width beyond which no term goes but those that are listed as wide.
    pub(crate) spread: Spread,
    /// The places of terms that are listed as wide.
    pub(crate) wide: Vec<usize>,
    /// By place, whether the term is listed as wide.
    pub(crate) is_wide: Vec<bool>,
    pub(crate) places: Places,
}

impl Gauge {
    /// Nothing was read.
    pub(crate) fn new(alloc: Global) -> Self
        ensures { result.is_read ≡ false }
    {
        Gauge {
            is_read: false,
            values: Vec::new(alloc),
            since: Vec::new(alloc),
            count: 0,
            newest: 0,
            spread: Spread {
                sum: Ends { low: 0, high: 0 },
                widest: 0,
            },
            wide: Vec::new(alloc),
            is_wide: Vec::new(alloc),
            places: Places::new(alloc),
        }
    }

    /// Whether a sum of so many terms is remembered.
    pub(crate) fn is_for(count: usize) -> bool
        ensures { IsTrue result → 0 < count }
    {
        count > SHORT
    }

    /// Forgets what was read after the first `standing` entries; all if that is `None`.
    pub(crate) fn go_back(&mut self, standing: Option<usize>)
        ensures gauge { (ts : List TermOf) → IsGaugeOf ts self.old → IsGaugeOf ts self.new }
        ensures recalls { (ts : List TermOf) (s : Trail) (n : ℕ) → IfSome standing (Recalls (memory_of ts self.old) s)
            → Recalls (memory_of ts self.new) s n }
    {
        match standing {
            None => self.is_read = false,
            Some(count) => self.count = self.count.min(count),
        }
    }
}

/// The ends of a sum where those of one term are replaced.
fn replaced(sum: &Ends, old: &Ends, new: &Ends) -> Ends
    requires low { unsigned_abs (sum.now.low -ℤ old.now.low) + unsigned_abs new.now.low < 2 ^ 63 }
    requires high { unsigned_abs (sum.now.high -ℤ old.now.high) + unsigned_abs new.now.high < 2 ^ 63 }
    ensures low { result.low ≡ (sum.now.low -ℤ old.now.low) +ℤ new.now.low }
    ensures high { result.high ≡ (sum.now.high -ℤ old.now.high) +ℤ new.now.high }
{
    Ends {
        low: sum.low - old.low + new.low,
        high: sum.high - old.high + new.high,
    }
}

/// A width beyond which neither the terms of a width go nor one more, unless that is listed as wide.
fn widened(is_wide: bool, widest: u64, own: &Ends) -> u64
    ensures more { widest ≤ result }
    ensures own { is_wide ≡ false → (own.now.high -ℤ own.now.low) ≤ℤ pos result }
{
    if is_wide {
        return widest;
    }
    width(own).max(widest)
}

/// Reads the ends of one term's subject anew.
fn renew(store: &Store, terms: &[Term], gauge: &mut Gauge, place: usize)
    requires measurable { AreMeasurable store.now.first terms.now }
    requires held { IsHeld store.now terms.now gauge.old }
    requires place { place < length terms.now }
    ensures { Renews store.now terms.now gauge.old gauge.new place }
{
    let term = &terms[place];
    let old = term_ends(term, &gauge.values[place]);
    let ends = ends_now(store, term);
    let own = term_ends(term, &ends);
    gauge.spread.sum = replaced(&gauge.spread.sum, &old, &own);
    gauge.spread.widest = widened(gauge.is_wide[place], gauge.spread.widest, &own);
    gauge.values[place] = ends;
    gauge.since[place] = store.last_on(term.subject);
}

/// Reads those anew that were read after an entry that is gone: all but the first `count` may be.
fn renew_gone(store: &Store, terms: &[Term], gauge: &mut Gauge, count: usize)
    requires measurable { AreMeasurable store.now.first terms.now }
    requires held { IsHeld store.now terms.now gauge.old }
    requires newest { All (λ r. r.since ≤ gauge.old.newest) (read_of terms.now gauge.old) }
    requires here { All (λ r. r.since ≤ count → IsRecalled store.now count r) (read_of terms.now gauge.old) }
    ensures held { IsHeld store.now terms.now gauge.new }
    ensures is_read { gauge.new.is_read ≡ gauge.old.is_read }
    ensures due { All (IsDue store.now count) (read_of terms.now gauge.new) }
{
    if gauge.newest <= count {
        return;
    }
    for place in 0..terms.len() {
        if gauge.since[place] > count {
            renew(store, terms, gauge, place);
        }
    }
}

/// Reads those about one subject anew.
fn renew_on(store: &Store, terms: &[Term], gauge: &mut Gauge, subject: u32)
    requires measurable { AreMeasurable store.now.first terms.now }
    requires held { IsHeld store.now terms.now gauge.old }
    ensures held { IsHeld store.now terms.now gauge.new }
    ensures is_read { gauge.new.is_read ≡ gauge.old.is_read }
    ensures due { (k : ℕ) → All (IsDue store.now k) (read_of terms.now gauge.old)
        → All (IsDue store.now k) (read_of terms.now gauge.new) }
    ensures now { All (λ r. r.subject ≡ subject → IsReadBy store.now (length store.now.entries) r)
        (read_of terms.now gauge.new) }
{
    let mut above = gauge.places.last(subject);
    while above > 0 {
        let place = above - 1;
        if terms[place].subject == subject {
            renew(store, terms, gauge, place);
        }
        above = gauge.places.before(place);
    }
}

/// Reads those anew that an entry from a number on is about.
fn renew_from(store: &Store, terms: &[Term], gauge: &mut Gauge, from: usize)
    requires measurable { AreMeasurable store.now.first terms.now }
    requires held { IsHeld store.now terms.now gauge.old }
    requires within { from ≤ length store.now.entries }
    requires due { All (IsDue store.now from) (read_of terms.now gauge.old) }
    requires is_read { gauge.old.is_read ≡ true }
    ensures { IsFresh store.now terms.now gauge.new }
{
    let entries = store.entries();
    for entry in from..entries.len() {
        renew_on(store, terms, gauge, entries[entry].atom.subject);
    }
    gauge.count = entries.len();
    gauge.newest = entries.len();
}

/// Reads after how many entries the last one about each term's subject came.
fn read_since(store: &Store, terms: &[Term], since: &mut Vec<usize>) -> Result<(), AllocError>
    requires { AreMeasurable store.now.first terms.now }
    ensures count { OnOk result (length since.new.items ≡ length terms.now) }
    ensures last { OnOk result ((j : ℕ) (d : TermOf) → j < length terms.now → IsLastOn store.now.entries
        (slice_index_or terms.now j d).subject (slice_index_or since.new.items j 0)) }
{
    since.clear();
    for place in 0..terms.len() {
        since.push(store.last_on(terms[place].subject))?;
    }
    Ok(())
}

/// Reads all.
fn read(store: &Store, terms: &[Term], gauge: &mut Gauge) -> Result<(), AllocError>
    requires some { 0 < length terms.now }
    requires measurable { AreMeasurable store.now.first terms.now }
    ensures gauge { IsGaugeOf terms.now gauge.new }
    ensures fresh { OnOk result (IsFresh store.now terms.now gauge.new) }
{
    gauge.is_read = false;
    gauge.places.fill(terms)?;
    let sum = measure(&store.present(), terms, &mut gauge.values)?;
    read_since(store, terms, &mut gauge.since)?;
    gauge.wide.clear();
    gauge.is_wide.clear();
    gauge.is_wide.resize(terms.len(), false)?;
    // Which terms are wide is found out where it is asked for.
    gauge.spread = Spread {
        sum,
        widest: u64::MAX,
    };
    gauge.count = store.entries().len();
    gauge.newest = gauge.count;
    gauge.is_read = true;
    Ok(())
}

/// Reads what changed since the last visit, or all if that is more.
pub(crate) fn refresh(
    store: &Store,
    terms: &[Term],
    standing: Option<usize>,
    gauge: &mut Gauge,
) -> Result<(), AllocError>
    requires some { 0 < length terms.now }
    requires measurable { AreMeasurable store.now.first terms.now }
    requires gauge { IsGaugeOf terms.now gauge.old }
    requires recalls { IfSome standing (Recalls (memory_of terms.now gauge.old) store.now) }
    ensures gauge { IsGaugeOf terms.now gauge.new }
    ensures fresh { OnOk result (IsFresh store.now terms.now gauge.new) }
{
    let Some(standing) = standing else {
        return read(store, terms, gauge);
    };
    let entries = store.entries().len();
    let from = standing.min(gauge.count).min(entries);
    if !gauge.is_read || entries - from > terms.len() {
        return read(store, terms, gauge);
    }
    renew_gone(store, terms, gauge, from);
    renew_from(store, terms, gauge, from);
    Ok(())
}

/// Lists the places of the terms that are wider than a limit.
fn sort_out(store: &Store, terms: &[Term], gauge: &mut Gauge, limit: u64) -> Result<(), AllocError>
    requires measurable { AreMeasurable store.now.first terms.now }
    requires fresh { IsFresh store.now terms.now gauge.old }
    ensures gauge { IsGaugeOf terms.now gauge.new }
    ensures fresh { OnOk result (IsFresh store.now terms.now gauge.new) }
    ensures values { gauge.new.values ≡ gauge.old.values }
    ensures sum { gauge.new.spread.sum ≡ gauge.old.spread.sum }
    ensures widest { OnOk result (gauge.new.spread.widest ≤ limit) }
{
    gauge.is_read = false;
    gauge.wide.clear();
    let mut widest = 0;
    for place in 0..terms.len() {
        let width = width(&term_ends(&terms[place], &gauge.values[place]));
        if width > limit {
            gauge.is_wide[place] = true;
            gauge.wide.push(place)?;
        } else {
            gauge.is_wide[place] = false;
            widest = width.max(widest);
        }
    }
    gauge.spread.widest = widest;
    gauge.is_read = true;
    Ok(())
}

/// What the sum leaves to each term at least: no term that is no wider is past its room.
fn room_of(sum: &Ends, goal: &Ends) -> u64
    requires low { sum.now.low ≤ℤ goal.now.high }
    requires high { goal.now.low ≤ℤ sum.now.high }
    ensures { FitsWidest result sum.now goal.now }
{
    goal.high.abs_diff(sum.low).min(sum.high.abs_diff(goal.low))
}

/// Lists the places of all terms that may be past their room, and of few others.
pub(crate) fn list_wide(
    store: &Store,
    terms: &[Term],
    goal: &Ends,
    gauge: &mut Gauge,
) -> Result<(), AllocError>
    requires measurable { AreMeasurable store.now.first terms.now }
    requires fresh { IsFresh store.now terms.now gauge.old }
    requires low { gauge.old.spread.sum.low ≤ℤ goal.now.high }
    requires high { goal.now.low ≤ℤ gauge.old.spread.sum.high }
    ensures gauge { IsGaugeOf terms.now gauge.new }
    ensures fresh { OnOk result (IsFresh store.now terms.now gauge.new) }
    ensures values { gauge.new.values ≡ gauge.old.values }
    ensures sum { gauge.new.spread.sum ≡ gauge.old.spread.sum }
    ensures fits { OnOk result (FitsWidest gauge.new.spread.widest gauge.new.spread.sum goal.now) }
{
    let room = room_of(&gauge.spread.sum, goal);
    if gauge.spread.widest <= room {
        return Ok(());
    }
    // The list serves until the room is half of what it is now.
    sort_out(store, terms, gauge, room / 2)
}

/// What the sum can be now, read as far as it changed since the last visit where it is long.
pub(crate) fn look(
    store: &Store,
    task: &SumTask,
    standing: Option<usize>,
    gauge: &mut Gauge,
) -> Result<Ends, AllocError>
    requires range { IsSumInRange store.now.first task.now.terms.now task.now.admitted.now }
    requires gauge { IsGaugeOf task.now.terms.now gauge.old }
    requires recalls { IfSome standing (Recalls (memory_of task.now.terms.now gauge.old) store.now) }
    ensures gauge { IsGaugeOf task.now.terms.now gauge.new }
    ensures recalls { OnOk result (RecallsNow (memory_of task.now.terms.now gauge.new) store.now) }
    ensures sum { IfOk result (IsSumNow store.now task.now.terms.now) }
{
    let terms = task.terms;
    if Gauge::is_for(terms.len()) {
        refresh(store, terms, standing, gauge)?;
        return Ok(gauge.spread.sum);
    }
    gauge.is_read = false;
    Ok(spread_now(store, terms).sum)
}
