//! The tracer: the items of a log, and a checker that has the clauses that they added.
ghost use Rattle.std.specs.Prelude.{◌≡◌, ◌↔◌, ◌<◌, [], Some, None, length, map, All, IsTrue, IfOk, OnOk, OnErr, MatchOption, string_bytes};
ghost use Rattle.cps_model.specs.Validity.{variable_fault};
ghost use Rattle.cps_log.specs.Subjects.{IsDefinable, IsClauseOver, variable_domain};
ghost use Rattle.cps_log.specs.Writing.{log_text};
ghost use Rattle.cps_log.specs.declared.item.LogItem.TheVariants as items;
ghost use Rattle.cps_subjects.specs.Domains.{AreDomains};
ghost use Rattle.cps_tracer.specs.Traced.{subjects_of, next_number, with_item, added_clause, HasLearnt};

use cps_literal::{Atom, Clause};
use cps_log::{LogItem, log_text};
use cps_model::{LinearExpr, Variable};
use cps_rup::LratChecker;
use cps_subjects::{atom_of_literal, domain_of, is_definable, is_over, sum_domain};
use cps_validate::ValidModel;
use std::alloc::{AllocError, Global};
use std::marker::Model;

/// The items of a log so far, which can be appended to. The clauses that they add are numbered from 0, as they come;
/// hints are such numbers.
pub struct Tracer<'a> {
    alloc: Global,
    variables: &'a [Variable],
    assumptions: &'a [i32],
    items: Vec<LogItem>,
    /// The domains of the subjects, and the clauses.
    checker: LratChecker,
}

// Written out, so that crates above do not prove it anew.
impl Drop for Tracer<'_> {
    fn drop(self) {
        let Tracer {
            alloc: _alloc,
            variables: _variables,
            assumptions: _assumptions,
            items: _items,
            checker: _checker,
        } = self;
    }
}

impl<'a> Model for Tracer<'a> {
    ghost use Rattle.cps_tracer.specs.Traced.{Traced};

    ghost Value = { Traced };

    ghost use Rattle.cps_tracer.specs.Tracing.{IsTracedIn};

    ghost view = { λ t. record {
      variables = t.variables.now;
      assumptions = t.assumptions.now;
      items = t.items.items;
    } };

    ghost invariant = { λ t. IsTracedIn t.variables.now t.assumptions.now t.items.items t.checker };
}

/// A checker with the variables' domains, and without a clause.
fn checker_of(alloc: Global, variables: &[Variable]) -> Result<LratChecker, AllocError>
    requires { All (λ v. variable_fault v ≡ None) variables.now }
    ensures domains { IfOk result (λ checker. AreDomains checker.domains (map variable_domain variables.now)) }
    ensures clauses { IfOk result (λ checker. checker.clauses ≡ []) }
{
    let mut checker = LratChecker::new(alloc);
    for variable in variables {
        checker.add_subject(domain_of(alloc, variable)?)?;
    }
    Ok(checker)
}

impl<'a> Tracer<'a> {
    /// A log without an item, of a valid model.
    pub fn new(alloc: Global, model: &'a ValidModel) -> Result<Self, AllocError>
        ensures { IfOk result (λ t. t ≡ record {
          variables = model.now.variables;
          assumptions = model.now.assumptions;
          items = [];
        }) }
    {
        let model = model.model();
        let variables = model.variables.as_slice();
        let checker = checker_of(alloc, variables)?;
        Ok(Tracer {
            alloc,
            variables,
            assumptions: model.assumptions.as_slice(),
            items: Vec::new(alloc),
            checker,
        })
    }

    /// Whether a clause has atoms alone that name subjects of the log and numbers of magnitude at most 2^62.
    pub fn is_over(&self, clause: &[Atom]) -> bool
        ensures { IsTrue result ↔ IsClauseOver (subjects_of self.now) clause.now }
    {
        is_over(self.checker.domains().len(), clause)
    }

    /// Whether the log may define a sum.
    pub fn is_definable(&self, sum: &LinearExpr) -> bool
        ensures { IsTrue result ↔ IsDefinable self.now.variables sum.now }
    {
        is_definable(self.variables, sum)
    }

    /// What its lists are made by.
    pub fn allocator(&self) -> Global {
        self.alloc
    }

    /// Appends the definition of a sum, which is the next subject.
    pub fn define(&mut self, sum: LinearExpr) -> Result<(), AllocError>
        requires { IsDefinable self.old.variables sum }
        ensures ok { OnOk result (self.new ≡ with_item self.old (items.Sum sum)) }
        ensures err { OnErr result (self.new ≡ self.old) }
    {
        self.items.reserve(1)?;
        let domain = sum_domain(self.alloc, self.variables, self.checker.domains(), &sum)?;
        self.checker.add_subject(domain)?;
        self.items.push_reserved(LogItem::Sum(sum));
        Ok(())
    }

    /// Appends an item and the clause that it adds, and answers the clause's number.
    fn append(&mut self, item: LogItem, clause: &[Atom]) -> Result<u32, AllocError>
        requires over { IsClauseOver (subjects_of self.old) clause.now }
        requires added { added_clause self.old.assumptions item ≡ Some clause.now }
        ensures ok { OnOk result (self.new ≡ with_item self.old item) }
        ensures number { IfOk result (λ number. number ≡ next_number self.old) }
        ensures err { OnErr result (self.new ≡ self.old) }
    {
        let Ok(number) = u32::try_from(self.checker.clause_count()) else {
            return Err(AllocError);
        };
        self.items.reserve(1)?;
        self.checker.add_clause(clause)?;
        self.items.push_reserved(item);
        Ok(number)
    }

    /// Appends a clause that follows from a constraint, and answers its number.
    pub fn reason(&mut self, constraint: u32, clause: &[Atom]) -> Result<u32, AllocError>
        requires { IsClauseOver (subjects_of self.old) clause.now }
        ensures ok { OnOk result (self.new ≡ with_item self.old (items.Reason constraint clause.now)) }
        ensures number { IfOk result (λ number. number ≡ next_number self.old) }
        ensures err { OnErr result (self.new ≡ self.old) }
    {
        let added = Clause::from_slice(self.alloc, clause)?;
        self.append(
            LogItem::Reason {
                constraint,
                clause: added,
            },
            clause,
        )
    }

    /// Appends a clause that follows from the objective's domain and bound, and answers its number.
    pub fn objective(&mut self, clause: &[Atom]) -> Result<u32, AllocError>
        requires { IsClauseOver (subjects_of self.old) clause.now }
        ensures ok { OnOk result (self.new ≡ with_item self.old (items.Objective clause.now)) }
        ensures number { IfOk result (λ number. number ≡ next_number self.old) }
        ensures err { OnErr result (self.new ≡ self.old) }
    {
        let added = Clause::from_slice(self.alloc, clause)?;
        self.append(LogItem::Objective(added), clause)
    }

    /// Appends a clause that follows from what the sum of a subject is, and answers its number.
    pub fn ends(&mut self, subject: u32, clause: &[Atom]) -> Result<u32, AllocError>
        requires { IsClauseOver (subjects_of self.old) clause.now }
        ensures ok { OnOk result (self.new ≡ with_item self.old (items.Ends subject clause.now)) }
        ensures number { IfOk result (λ number. number ≡ next_number self.old) }
        ensures err { OnErr result (self.new ≡ self.old) }
    {
        let added = Clause::from_slice(self.alloc, clause)?;
        self.append(
            LogItem::Ends {
                subject,
                clause: added,
            },
            clause,
        )
    }

    /// Appends an assumption by its place in the model, and answers the number of its clause.
    pub fn assume(&mut self, assumption: u32) -> Result<u32, AllocError>
        requires { assumption < length self.old.assumptions }
        ensures ok { OnOk result (self.new ≡ with_item self.old (items.Assumed assumption)) }
        ensures number { IfOk result (λ number. number ≡ next_number self.old) }
        ensures err { OnErr result (self.new ≡ self.old) }
    {
        let literal = self.assumptions[assumption as usize];
        self.append(LogItem::Assumed(assumption), &[atom_of_literal(literal)])
    }

    /// Appends a learnt clause and answers its number, if unit propagation over the clauses with these numbers, and
    /// those that were settled, comes from its box to a clause that is false, or the box is empty. Else nothing is
    /// appended. A number of no clause is passed over. Hints may stand in any order; in that in which their clauses
    /// become unit they are walked over once.
    pub fn learn(&mut self, clause: &[Atom], hints: &[u32]) -> Result<Option<u32>, AllocError>
        ensures learnt { IfOk result (λ found. MatchOption found (self.new ≡ self.old)
            (HasLearnt self.old self.new clause.now)) }
        ensures err { OnErr result (self.new ≡ self.old) }
    {
        if !self.is_over(clause) {
            return Ok(None);
        }
        if !self.checker.is_implied_by(clause, hints)? {
            return Ok(None);
        }
        let learnt = Clause::from_slice(self.alloc, clause)?;
        let number = self.append(LogItem::Learnt(learnt), clause)?;
        Ok(Some(number))
    }

    /// Has a clause that is unit without assumption narrow the domains for good, so that no later hint need name it.
    pub fn settle(&mut self, number: u32) -> Result<(), AllocError>
        ensures { self.new ≡ self.old }
    {
        self.checker.settle(number)
    }

    /// The lines of the log, one for each item, each ended by a line feed.
    pub fn text(&self) -> Result<String, AllocError>
        ensures { IfOk result (λ text. string_bytes text ≡ log_text self.now.items) }
    {
        log_text(self.alloc, self.items.as_slice())
    }

    /// The items of the log.
    pub fn into_items(self) -> Vec<LogItem>
        ensures { result.items ≡ self.entry.items }
    {
        let Tracer {
            alloc: _alloc,
            variables: _variables,
            assumptions: _assumptions,
            items,
            checker: _checker,
        } = self;
        items
    }
}
