//! The objective as a base and held terms, and the steps that lift its base.
//!
//! Each step first computes whether the new form stays within a limit and within its subjects' ends, and changes the
//! form only if it does; a refusal says that no values within the limit are left. So no sum overflows, and a form never
//! has a base that no solution can meet. The core is a mark on its terms, and helpers go by one term each (`lesser`,
//! `with_bound`, `lessen`), since the specification folds over the same list.

ghost use Rattle.std.specs.Prelude.{◌≡◌, ◌⊎◌, ◌+◌, ◌*◌, ◌<◌, ◌≤◌, ◌^◌, ◌++◌, min, if◌then◌else◌, slice_set, ℤ, pos, ◌+ℤ◌, ◌-ℤ◌, ◌*ℤ◌, ◌≤ℤ◌, ◌<ℤ◌, unsigned_abs, List, [], ◌∷◌, map, length, true, false, Ok, IfOk, OnOk, OnErr, IfSome, IsNone};
ghost use Rattle.cps_domain.specs.Window.{intervals};
ghost use Rattle.cps_literal.specs.Truth.{value_at};
ghost use Rattle.cps_instance.specs.Terms.{domain_at, least_of, greatest_of, magnitude, terms_value};
ghost use Rattle.cps_instance.specs.Sums.{least_sum_of, greatest_sum_of};
ghost use Rattle.cps_reform.specs.Marks.{IsCoreMarked};
ghost use Rattle.cps_reform.specs.Forms.{form_value, held_reach, with_held, IsAbove, FitsTypes, term_at, lifted, Lifts, IsPastLift};
ghost use Rattle.cps_reform.specs.Cores.{core_terms, core_sum, core_bound, core_size, least_weight, WeighAtLeast, IsSomeAbove, lessened, sum_held, split, Splits, IsPastSplit};

use crate::held::Held;
use crate::mark::mark_terms;
use cps_domain::Domain;
use cps_instance::Term;
use cps_literal::Atom;
use std::alloc::{AllocError, Global};
use std::marker::Model;

/// The objective as a base and held terms.
pub struct Reform {
    base: i64,
    terms: Vec<Held>,
}

// Written out, so that crates above do not prove it anew.
impl Drop for Reform {
    fn drop(self) {
        let Reform {
            base: _base,
            terms: _terms,
        } = self;
    }
}

/// What the sum of a core takes over.
#[derive(Clone, Copy)]
struct Share {
    weight: u64,
    bound: i64,
}

impl Model for Reform {
    ghost use Rattle.cps_reform.specs.Forms.{Form};

    ghost Value = { Form };

    ghost view = { λ r. record { base = r.base; terms = r.terms.items } };
}

/// The greatest value of a subject.
fn greatest_at(domains: &[Domain], subject: u32) -> i64
    requires { subject < length domains.now }
    ensures { result ≡ greatest_of (domain_at (map intervals domains.now) subject) }
{
    domains[subject as usize].max()
}

/// The least value of a subject.
fn least_at(domains: &[Domain], subject: u32) -> i64
    requires { subject < length domains.now }
    ensures { result ≡ least_of (domain_at (map intervals domains.now) subject) }
{
    domains[subject as usize].min()
}

/// A weight times a bound. A weight that does not fit into the bound's type has the bound 0.
fn product(weight: u64, bound: i64) -> i64
    requires { weight * unsigned_abs bound < 2 ^ 62 }
    ensures is { result ≡ pos weight *ℤ bound }
    ensures size { unsigned_abs result ≡ weight * unsigned_abs bound }
{
    if bound == 0 {
        return 0;
    }
    let factor = weight as i64;
    factor * bound
}

/// What a weight makes of a rise from one bound to another.
fn rise(weight: u64, from: i64, to: i64) -> u64
    requires rises { from ≤ℤ to }
    requires from { unsigned_abs from < 2 ^ 62 }
    requires to { unsigned_abs to < 2 ^ 62 }
    requires small { weight * (unsigned_abs from + unsigned_abs to) < 2 ^ 63 }
    ensures is { pos result ≡ pos weight *ℤ (to -ℤ from) }
    ensures small { result < 2 ^ 63 }
{
    let height = (to - from) as u64;
    weight * height
}

/// How much a base may rise before it reaches a limit.
fn room(base: i64, limit: i64) -> u64
    requires order { base ≤ℤ limit }
    requires base { unsigned_abs base < 2 ^ 62 }
    requires limit { unsigned_abs limit < 2 ^ 62 }
    ensures is { base +ℤ pos result ≡ limit }
    ensures small { result < 2 ^ 63 }
{
    (limit - base) as u64
}

/// The lesser of a weight and a term's, if that is in the core.
fn lesser(least: u64, term: &Held) -> u64
    ensures { result ≡ (if term.now.in_core then min term.now.weight least else least) }
{
    if term.in_core {
        term.weight.min(least)
    } else {
        least
    }
}

/// The least weight in the core.
fn least_weight(terms: &[Held]) -> u64
    ensures { result ≡ least_weight terms.now }
{
    let mut least = u64::MAX;
    for term in terms {
        least = lesser(least, term);
    }
    least
}

/// A sum with the bound of a term, if that is in the core.
fn with_bound(sum: i64, term: &Held) -> i64
    requires small { unsigned_abs sum + (if term.now.in_core then unsigned_abs term.now.bound else 0) < 2 ^ 62 }
    ensures { result ≡ (if term.now.in_core then term.now.bound else pos 0) +ℤ sum }
{
    if term.in_core { term.bound + sum } else { sum }
}

/// The sum of the core's bounds.
fn core_bound(terms: &[Held]) -> i64
    requires { core_size terms.now < 2 ^ 62 }
    ensures is { result ≡ core_bound terms.now }
    ensures small { unsigned_abs result < 2 ^ 62 }
{
    let mut sum: i64 = 0;
    for term in terms {
        sum = with_bound(sum, term);
    }
    sum
}

/// Adds the subject of a term, if that is in the core.
fn push_core(terms: &mut Vec<Term>, term: &Held) -> Result<(), AllocError>
    ensures { OnOk result (terms.new.items ≡ terms.old.items ++ core_terms (term.now ∷ [])) }
{
    if term.in_core {
        terms.push(Term {
            coeff: 1,
            subject: term.subject,
        })?;
    }
    Ok(())
}

/// The term at a place.
fn at(terms: &[Held], place: usize) -> Held
    requires { place < length terms.now }
    ensures { result ≡ term_at terms.now place }
{
    terms[place]
}

/// Puts another term at a place.
fn set(terms: &mut [Held], place: usize, term: Held)
    requires { place < length terms.old }
    ensures { terms.new ≡ slice_set terms.old place term }
{
    terms[place] = term;
}

/// A term after the weights of the core fell.
fn lessen(term: Held, weight: u64) -> Held
    requires { term.in_core ≡ true → weight ≤ term.weight }
    ensures { result ≡ lessened weight term }
{
    if !term.in_core {
        return term;
    }
    Held {
        weight: term.weight - weight,
        in_core: false,
        ..term
    }
}

/// Takes a weight off each term of the core, and unmarks it.
fn lessen_all(terms: &mut [Held], weight: u64)
    requires { WeighAtLeast weight terms.old }
    ensures { terms.new ≡ map (lessened weight) terms.old }
{
    for term in terms.iter_mut() {
        *term = lessen(*term, weight);
    }
}

/// Takes a weight off each term of the core, and adds a term for its sum.
fn split_terms(terms: &mut Vec<Held>, subject: u32, share: Share) -> Result<(), AllocError>
    requires weight { share.weight ≡ least_weight terms.old.items }
    requires bound { share.bound ≡ core_bound terms.old.items +ℤ pos 1 }
    ensures splits { OnOk result (terms.new.items ≡ map (lessened share.weight) terms.old.items ++ sum_held share.weight
        subject terms.old.items ∷ []) }
    ensures err { OnErr result (terms.new.items ≡ terms.old.items) }
{
    terms.push(Held {
        weight: share.weight,
        subject,
        bound: share.bound,
        in_core: false,
    })?;
    lessen_all(terms.as_mut_slice(), share.weight);
    Ok(())
}

impl Reform {
    /// A form with this base and these terms.
    pub fn new(base: i64, terms: Vec<Held>) -> Self
        ensures base { result.base ≡ base }
        ensures terms { result.terms ≡ terms.items }
    {
        Reform { base, terms }
    }

    /// The base.
    pub fn base(&self) -> i64
        ensures { result ≡ self.now.base }
    {
        self.base
    }

    /// The terms.
    pub fn terms(&self) -> &[Held]
        ensures { result.now ≡ self.now.terms }
    {
        self.terms.as_slice()
    }

    /// Adds a weight times a subject, held at its least value.
    pub fn hold(&mut self, domains: &[Domain], weight: u64, subject: u32) -> Result<(), AllocError>
        requires subject { subject < length domains.now }
        requires roomy { FitsTypes (map intervals domains.now) self.old }
        requires ordered { least_of (domain_at (map intervals domains.now) subject) ≤ℤ greatest_of (domain_at (map
            intervals domains.now) subject) }
        requires within { magnitude (domain_at (map intervals domains.now) subject) < 2 ^ 62 }
        requires small { held_reach (map intervals domains.now) self.old.terms + weight * magnitude (domain_at (map
            intervals domains.now) subject) < 2 ^ 62 }
        requires base { unsigned_abs self.old.base ≤ held_reach (map intervals domains.now) self.old.terms }
        ensures holds { OnOk result (self.new ≡ with_held (map intervals domains.now) self.old weight subject) }
        ensures err { OnErr result (self.new ≡ self.old) }
        ensures roomy { FitsTypes (map intervals domains.now) self.new }
        ensures base { unsigned_abs self.new.base ≤ held_reach (map intervals domains.now) self.new.terms }
        ensures worth { OnOk result ((xs : List ℤ) → form_value xs self.new ≡ form_value xs self.old +ℤ pos weight *ℤ
            value_at xs subject) }
        ensures above { (xs : List ℤ) → IsAbove xs self.old.terms → least_of (domain_at (map intervals domains.now)
            subject) ≤ℤ value_at xs subject → IsAbove xs self.new.terms }
    {
        let bound = least_at(domains, subject);
        let part = product(weight, bound);
        self.add(part, weight, subject, bound)?;
        Ok(())
    }

    /// Adds a term, and to the base.
    fn add(&mut self, part: i64, weight: u64, subject: u32, bound: i64) -> Result<(), AllocError>
        requires { unsigned_abs (self.old.base +ℤ part) < 2 ^ 62 }
        ensures adds { OnOk result (self.new ≡ record {
          base = self.old.base +ℤ part;
          terms = self.old.terms ++ record {
            weight = weight;
            subject = subject;
            bound = bound;
            in_core = false;
          } ∷ [];
        }) }
        ensures err { OnErr result (self.new ≡ self.old) }
    {
        self.terms.push(Held {
            weight,
            subject,
            bound,
            in_core: false,
        })?;
        self.base += part;
        Ok(())
    }

    /// Raises the bound of one term, and the base by its weight times as much. Where the base would pass the limit, or
    /// the bound its subject's greatest value, it answers false and nothing changes: then no values that have all this
    /// have an objective within the limit.
    pub fn lift(&mut self, domains: &[Domain], place: usize, bound: i64, limit: i64) -> bool
        requires roomy { FitsTypes (map intervals domains.now) self.old }
        requires place { place < length self.old.terms }
        requires rises { (term_at self.old.terms place).bound ≤ℤ bound }
        requires order { self.old.base ≤ℤ limit }
        requires base { unsigned_abs self.old.base < 2 ^ 62 }
        requires limit { unsigned_abs limit < 2 ^ 62 }
        ensures lifts { result ≡ true → self.new ≡ lifted self.old place bound }
        ensures within { result ≡ true → self.new.base ≤ℤ limit }
        ensures stays { result ≡ false → self.new ≡ self.old }
        ensures roomy { FitsTypes (map intervals domains.now) self.new }
        ensures worth { (xs : List ℤ) → form_value xs self.new ≡ form_value xs self.old }
        ensures above { (xs : List ℤ) → IsAbove xs self.old.terms → bound ≤ℤ value_at xs (term_at self.old.terms
            place).subject → IsAbove xs self.new.terms }
        ensures past { result ≡ false → IsPastLift (map intervals domains.now) self.old place bound limit }
        ensures none { result ≡ false → (xs : List ℤ) → IsAbove xs self.old.terms → bound ≤ℤ value_at xs (term_at
            self.old.terms place).subject → value_at xs (term_at self.old.terms place).subject ≤ℤ greatest_of (domain_at
            (map intervals domains.now) (term_at self.old.terms place).subject) → limit <ℤ form_value xs self.old }
    {
        match self.lift_by(domains, place, bound, limit) {
            Some(amount) => {
                self.apply_lift(place, bound, amount);
                true
            }
            None => false,
        }
    }

    /// By how much the base rises with the bound of one term; `None` if it would pass the limit, or the bound its
    /// subject's greatest value.
    fn lift_by(&self, domains: &[Domain], place: usize, bound: i64, limit: i64) -> Option<u64>
        requires roomy { FitsTypes (map intervals domains.now) self.now }
        requires place { place < length self.now.terms }
        requires rises { (term_at self.now.terms place).bound ≤ℤ bound }
        requires order { self.now.base ≤ℤ limit }
        requires base { unsigned_abs self.now.base < 2 ^ 62 }
        requires limit { unsigned_abs limit < 2 ^ 62 }
        ensures some { IfSome result (Lifts (map intervals domains.now) self.now place bound limit) }
        ensures none { IsNone result → IsPastLift (map intervals domains.now) self.now place bound limit }
    {
        let term = at(self.terms(), place);
        if greatest_at(domains, term.subject) < bound {
            return None;
        }
        let amount = rise(term.weight, term.bound, bound);
        if room(self.base(), limit) < amount {
            return None;
        }
        Some(amount)
    }

    /// Raises the bound of one term, and the base by as much as that is worth.
    fn apply_lift(&mut self, place: usize, bound: i64, amount: u64)
        requires place { place < length self.old.terms }
        requires amount { pos amount ≡ pos (term_at self.old.terms place).weight *ℤ (bound -ℤ (term_at self.old.terms
            place).bound) }
        requires small { amount < 2 ^ 63 }
        requires within { unsigned_abs (self.old.base +ℤ pos amount) < 2 ^ 63 }
        ensures { self.new ≡ lifted self.old place bound }
    {
        let term = at(self.terms(), place);
        self.base += amount as i64;
        set(
            self.terms.as_mut_slice(),
            place,
            Held {
                bound,
                in_core: false,
                ..term
            },
        );
    }

    /// Marks the core of a failed term: it, and each term that weighs something and whose assumption is among the
    /// decisions. Other marks go.
    pub fn mark_core(&mut self, place: usize, decisions: &[Atom])
        ensures { IsCoreMarked self.old self.new place decisions.now }
    {
        mark_terms(self.terms.as_mut_slice(), place, decisions);
    }

    /// The subjects of the core, as the terms of a sum.
    pub fn core_terms(&self, alloc: Global) -> Result<Vec<Term>, AllocError>
        ensures { IfOk result (λ terms. terms.items ≡ core_terms self.now.terms) }
    {
        let mut terms = Vec::new(alloc);
        for term in &self.terms {
            push_core(&mut terms, term)?;
        }
        Ok(terms)
    }

    /// Splits a core: its weights fall by the least of them, which its sum, the given subject, takes over at the sum of
    /// the core's bounds plus 1, and by which the base rises. Where the base would pass the limit, or the bound the
    /// sum's greatest value, it answers false and nothing changes: then no values that are above a bound of the core
    /// have an objective within the limit.
    pub fn split(
        &mut self,
        domains: &[Domain],
        subject: u32,
        limit: i64,
    ) -> Result<bool, AllocError>
        requires roomy { FitsTypes (map intervals domains.now) self.old }
        requires weights { WeighAtLeast 1 self.old.terms }
        requires subject { subject < length domains.now }
        requires sum { domain_at (map intervals domains.now) subject ≡ (
          least_sum_of (map intervals domains.now)
              (core_sum self.old.terms),
          greatest_sum_of (map intervals domains.now) (core_sum self.old.terms),
        ) ∷ [] }
        requires order { self.old.base ≤ℤ limit }
        requires base { unsigned_abs self.old.base < 2 ^ 62 }
        requires limit { unsigned_abs limit < 2 ^ 62 }
        ensures splits { result ≡ Ok true → self.new ≡ split self.old (least_weight self.old.terms) subject }
        ensures within { result ≡ Ok true → self.new.base ≤ℤ limit }
        ensures stays { result ≡ Ok false → self.new ≡ self.old }
        ensures err { OnErr result (self.new ≡ self.old) }
        ensures roomy { FitsTypes (map intervals domains.now) self.new }
        ensures worth { (xs : List ℤ) → value_at xs subject ≡ terms_value xs (core_terms self.old.terms) → form_value xs
            self.new ≡ form_value xs self.old }
        ensures above { (xs : List ℤ) → IsAbove xs self.old.terms → IsSomeAbove xs self.old.terms → value_at xs subject
            ≡ terms_value xs (core_terms self.old.terms) → IsAbove xs self.new.terms }
        ensures past { result ≡ Ok false → IsPastSplit (map intervals domains.now) self.old subject limit }
        ensures none { result ≡ Ok false → (xs : List ℤ) → IsAbove xs self.old.terms → IsSomeAbove xs self.old.terms →
            value_at xs subject ≡ terms_value xs (core_terms self.old.terms) → value_at xs subject ≤ℤ greatest_of
            (domain_at (map intervals domains.now) subject) → limit <ℤ form_value xs self.old }
    {
        match self.share(domains, subject, limit) {
            Some(share) => {
                self.apply_split(subject, share)?;
                Ok(true)
            }
            None => Ok(false),
        }
    }

    /// What the sum of the core takes over; `None` if the base would pass the limit, or the bound the sum's greatest
    /// value.
    fn share(&self, domains: &[Domain], subject: u32, limit: i64) -> Option<Share>
        requires subject { subject < length domains.now }
        requires small { core_size self.now.terms < 2 ^ 62 }
        requires order { self.now.base ≤ℤ limit }
        requires base { unsigned_abs self.now.base < 2 ^ 62 }
        requires limit { unsigned_abs limit < 2 ^ 62 }
        ensures some { IfSome result (λ s. Splits (map intervals domains.now) self.now subject limit s.weight s.bound) }
        ensures none { IsNone result → IsPastSplit (map intervals domains.now) self.now subject limit }
    {
        let weight = least_weight(self.terms());
        let bound = core_bound(self.terms()) + 1;
        if greatest_at(domains, subject) < bound {
            return None;
        }
        if room(self.base(), limit) < weight {
            return None;
        }
        Some(Share { weight, bound })
    }

    /// Splits a core, of which the given subject takes over a share.
    fn apply_split(&mut self, subject: u32, share: Share) -> Result<(), AllocError>
        requires weight { share.weight ≡ least_weight self.old.terms }
        requires bound { share.bound ≡ core_bound self.old.terms +ℤ pos 1 }
        requires small { share.weight < 2 ^ 63 }
        requires within { unsigned_abs (self.old.base +ℤ pos share.weight) < 2 ^ 63 }
        ensures splits { OnOk result (self.new ≡ split self.old (least_weight self.old.terms) subject) }
        ensures err { OnErr result (self.new ≡ self.old) }
    {
        split_terms(&mut self.terms, subject, share)?;
        self.base += share.weight as i64;
        Ok(())
    }
}
