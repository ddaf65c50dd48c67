//! The first form of the objective, and what a worker has where it begins.

ghost use Rattle.std.specs.Prelude.{◌≡◌, ◌+◌, ◌<◌, ◌≤◌, ◌^◌, unsigned_abs, All, length, IfOk, OnOk, OnErr, IsTrue};
ghost use Rattle.cps_instance.specs.Posting.{objective_terms};
ghost use Rattle.cps_instance.specs.Problem.{variable_count};
ghost use Rattle.cps_instance.specs.Terms.{greatest_of_terms, terms_reach};
ghost use Rattle.cps_search.specs.Searches.{IsSoundSearch};
ghost use Rattle.cps_reform.specs.Beginning.{StandsForTerm, IsFirstForm};
ghost use Rattle.cps_core_guided.specs.Beginning.{MayHaveOpposite, OnlyGrew, beginning};
ghost use Rattle.cps_core_guided.specs.CoreTurns.{BeginsCore};

use cps_instance::{Instance, Term};
use cps_propagate::{Defining, Engine};
use cps_reform::{Reform, greatest_sum, objective_terms};
use cps_search::Frame;
use std::alloc::{AllocError, Global};

/// What a worker has where it begins, apart from its brancher.
pub(crate) struct Beginning<'a, P: Defining> {
    pub frame: Frame<'a, P>,
    pub reform: Reform,
    /// The greatest objective by the domains.
    pub greatest: i64,
}

/// The subject that a term of the form is over: the term's own, or, if its coefficient is negative, a defined sum that
/// is the opposite of it.
fn held_subject<P: Defining>(frame: &mut Frame<'_, P>, term: Term) -> Result<u32, AllocError>
    requires sound { IsSoundSearch frame.old }
    requires bottom { frame.old.store.level ≡ 0 }
    requires subject { term.subject < variable_count frame.old.instance }
    requires room { length frame.old.instance.domains < 2 ^ 31 }
    ensures holds { IfOk result (StandsForTerm frame.new.instance term) }
    ensures grew { IfOk result (MayHaveOpposite term.subject frame.old frame.new) }
    ensures sound { OnOk result (IsSoundSearch frame.new) }
    ensures refused { OnErr result (IsTrue frame.new.refused) }
{
    if term.coeff >= 0 {
        return Ok(term.subject);
    }
    let opposite = Term {
        coeff: -1,
        subject: term.subject,
    };
    frame.grow(&[opposite], 0)
}

/// The objective's first form: each of its terms is held at its least value.
fn first_form<P: Defining>(
    alloc: Global,
    frame: &mut Frame<'_, P>,
    terms: &[Term],
) -> Result<Reform, AllocError>
    requires sound { IsSoundSearch frame.old }
    requires bottom { frame.old.store.level ≡ 0 }
    requires subjects { All (λ t. t.subject < variable_count frame.old.instance) terms.now }
    requires small { terms_reach frame.old.instance.domains terms.now < 2 ^ 62 }
    requires room { length frame.old.instance.domains + length terms.now ≤ 2 ^ 31 }
    ensures first { IfOk result (IsFirstForm frame.new.instance terms.now) }
    ensures base { IfOk result (λ form. unsigned_abs form.base < 2 ^ 62) }
    ensures grew { OnOk result (OnlyGrew frame.old frame.new (length terms.now)) }
    ensures sound { OnOk result (IsSoundSearch frame.new) }
{
    let mut reform = Reform::new(0, Vec::new(alloc));
    for term in terms {
        let subject = held_subject(frame, *term)?;
        reform.hold(
            frame.instance().domains(),
            term.coeff.unsigned_abs(),
            subject,
        )?;
    }
    Ok(reform)
}

/// The first form of a frame's objective, and the greatest objective by the domains.
fn objective_form<P: Defining>(
    alloc: Global,
    frame: &mut Frame<'_, P>,
) -> Result<(Reform, i64), AllocError>
    requires sound { IsSoundSearch frame.old }
    requires bottom { frame.old.store.level ≡ 0 }
    requires few { length frame.old.instance.domains < 2 ^ 30 }
    ensures first { IfOk result (λ r. IsFirstForm frame.new.instance
        (objective_terms frame.old.instance.model.objective) r.0) }
    ensures base { IfOk result (λ r. unsigned_abs r.0.base < 2 ^ 62) }
    ensures greatest { IfOk result (λ r. r.1 ≡ greatest_of_terms frame.new.instance.domains
        (objective_terms frame.old.instance.model.objective)) }
    ensures small { IfOk result (λ r. unsigned_abs r.1 < 2 ^ 62) }
    ensures grew { OnOk result (OnlyGrew frame.old frame.new
        (length (objective_terms frame.old.instance.model.objective))) }
    ensures sound { OnOk result (IsSoundSearch frame.new) }
{
    let terms = objective_terms(alloc, frame.instance())?;
    let reform = first_form(alloc, frame, terms.as_slice())?;
    let greatest = greatest_sum(frame.instance().domains(), terms.as_slice());
    Ok((reform, greatest))
}

/// What a worker has that knows nothing yet.
pub(crate) fn begin<'a, P: Defining>(
    alloc: Global,
    instance: Instance<'a>,
    engine: Engine<P>,
    budget: u64,
    gap: u64,
) -> Result<Beginning<'a, P>, AllocError>
    requires tasks { engine.tasks ≡ instance.tasks }
    requires few { length instance.domains < 2 ^ 30 }
    ensures begins { IfOk result (λ b. BeginsCore instance.entry gap budget
        (beginning b.frame b.reform b.greatest)) }
    ensures small { IfOk result (λ b. unsigned_abs b.greatest < 2 ^ 62) }
    ensures longer { IfOk result (λ b. length instance.entry.domains ≤ length b.frame.instance.domains) }
{
    let mut frame = Frame::new(alloc, instance, engine, Some(budget), gap, None)?;
    let (reform, greatest) = objective_form(alloc, &mut frame)?;
    Ok(Beginning {
        frame,
        reform,
        greatest,
    })
}
