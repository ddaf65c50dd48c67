//! The items that lines are.
ghost use Rattle.std.specs.Prelude.{◌≡◌, ◌≢◌, ◌++◌, ◌<◌, ◌^◌, ℕ, ℤ, List, IfOk, MatchOption};
ghost use Rattle.std.specs.Fmt.{decimal, signed_decimal};
ghost use Rattle.cps_model.specs.declared.model.LinearExpr.{LinearExpr as SumOf};
ghost use Rattle.cps_literal.specs.declared.atom.Atom.{Atom as AtomOf};
ghost use Rattle.cps_log.specs.Subjects.{IsNear};
ghost use Rattle.cps_log.specs.Writing.{behind_blank, clause_text, terms_text, sum_text, item_line};
ghost use Rattle.cps_log.specs.Fitting.{FitsVariable, FitsClause, FitTerms, FitsSum, FitsItem};
ghost use Rattle.cps_cert.specs.Words.{BeginsWith};
ghost use Rattle.cps_log.specs.declared.item.LogItem.{LogItem as ItemOf};

use crate::number::{natural_of, number_of, variable_of};
use crate::words::{clause_of, next_word};
use cps_literal::Clause;
use cps_log::LogItem;
use cps_model::{LinearExpr, Listed};
use std::alloc::{AllocError, Global};

/// The number that is first, and what stands behind it.
fn next_number(bytes: &[u8]) -> Option<(i64, &[u8])>
    ensures { MatchOption result ((z : ℤ) (after : List ℕ) → IsNear z → ¬ BeginsWith bytes.now (signed_decimal z) after)
        (λ p. IsNear p.0 × BeginsWith bytes.now (signed_decimal p.0) p.1.now) }
{
    let Some((word, after)) = next_word(bytes) else {
        return None;
    };
    let Some(number) = number_of(word) else {
        return None;
    };
    Some((number, after))
}

/// The variable that is first, and what stands behind it.
fn next_variable(bytes: &[u8]) -> Option<(i32, &[u8])>
    ensures { MatchOption result ((r : ℤ) (after : List ℕ) → FitsVariable r → ¬ BeginsWith bytes.now (signed_decimal r) after)
        (λ p. FitsVariable p.0 × BeginsWith bytes.now (signed_decimal p.0) p.1.now) }
{
    let Some((word, after)) = next_word(bytes) else {
        return None;
    };
    let Some(variable) = variable_of(word) else {
        return None;
    };
    Some((variable, after))
}

/// The number from 0 on that is first, and what stands behind it.
fn next_natural(bytes: &[u8]) -> Option<(u32, &[u8])>
    ensures { MatchOption result ((n : ℕ) (after : List ℕ) → n < 2 ^ 32 → ¬ BeginsWith bytes.now (decimal n) after)
        (λ p. (p.0 < 2 ^ 32) × BeginsWith bytes.now (decimal p.0) p.1.now) }
{
    let Some((word, after)) = next_word(bytes) else {
        return None;
    };
    let Some(number) = natural_of(word) else {
        return None;
    };
    Some((number, after))
}

/// The sum with this offset whose terms the words of a text are.
fn terms_of(alloc: Global, text: &[u8], offset: i64) -> Result<Option<LinearExpr>, AllocError>
    ensures { IfOk result (λ o. MatchOption o ((rs cs : List ℤ) → FitTerms rs cs → text.now ≢ terms_text rs cs)
        (λ e. (e.offset ≡ offset) × FitTerms e.vars e.coeffs × (text.now ≡ terms_text e.vars e.coeffs))) }
{
    let mut vars = Vec::new(alloc);
    let mut coeffs = Vec::new(alloc);
    let mut rest = text;
    while !rest.is_empty() {
        let Some((variable, behind)) = next_variable(rest) else {
            return Ok(None);
        };
        let Some((coefficient, after)) = next_number(behind) else {
            return Ok(None);
        };
        vars.push(variable)?;
        coeffs.push(coefficient)?;
        rest = after;
    }
    Ok(Some(LinearExpr {
        vars: Listed::from_vec(vars),
        coeffs: Listed::from_vec(coeffs),
        offset,
    }))
}

/// The sum whose offset and terms the words of a text are.
fn sum_of(alloc: Global, text: &[u8]) -> Result<Option<LinearExpr>, AllocError>
    ensures { IfOk result (λ o. MatchOption o ((e : SumOf) → FitsSum e → text.now ≢ sum_text e)
        (λ e. FitsSum e × (text.now ≡ sum_text e))) }
{
    let Some((offset, after)) = next_number(text) else {
        return Ok(None);
    };
    terms_of(alloc, after, offset)
}

/// The number and the clause whose words a text has.
fn numbered_clause(alloc: Global, text: &[u8]) -> Result<Option<(u32, Clause)>, AllocError>
    ensures { IfOk result (λ o. MatchOption o ((n : ℕ) (c : List AtomOf) → n < 2 ^ 32 → FitsClause c → text.now ≢ behind_blank (decimal n) ++ clause_text c)
        (λ p. FitsClause p.1 × (text.now ≡ behind_blank (decimal p.0) ++ clause_text p.1))) }
{
    let Some((number, after)) = next_natural(text) else {
        return Ok(None);
    };
    let Some(clause) = clause_of(alloc, after)? else {
        return Ok(None);
    };
    Ok(Some((number, clause)))
}

/// The number that is all of a text.
fn lone_number(text: &[u8]) -> Option<u32>
    ensures { MatchOption result ((n : ℕ) → n < 2 ^ 32 → text.now ≢ behind_blank (decimal n))
        (λ n. text.now ≡ behind_blank (decimal n)) }
{
    let Some((number, after)) = next_natural(text) else {
        return None;
    };
    if after.is_empty() { Some(number) } else { None }
}

/// The item that a line is, if it is one whose numbers fit.
pub(crate) fn item_of(alloc: Global, line: &[u8]) -> Result<Option<LogItem>, AllocError>
    ensures { IfOk result (λ o. MatchOption o ((i : ItemOf) → FitsItem i → line.now ≢ item_line i)
        (λ i. FitsItem i × (line.now ≡ item_line i))) }
{
    match line {
        [b's', text @ ..] => match sum_of(alloc, text)? {
            Some(sum) => Ok(Some(LogItem::Sum(sum))),
            None => Ok(None),
        },
        [b'e', text @ ..] => match numbered_clause(alloc, text)? {
            Some((constraint, clause)) => Ok(Some(LogItem::Reason { constraint, clause })),
            None => Ok(None),
        },
        [b'o', text @ ..] => match clause_of(alloc, text)? {
            Some(clause) => Ok(Some(LogItem::Objective(clause))),
            None => Ok(None),
        },
        [b't', text @ ..] => match numbered_clause(alloc, text)? {
            Some((subject, clause)) => Ok(Some(LogItem::Ends { subject, clause })),
            None => Ok(None),
        },
        [b'a', text @ ..] => match lone_number(text) {
            Some(number) => Ok(Some(LogItem::Assumed(number))),
            None => Ok(None),
        },
        [b'l', text @ ..] => match clause_of(alloc, text)? {
            Some(clause) => Ok(Some(LogItem::Learnt(clause))),
            None => Ok(None),
        },
        _ => Ok(None),
    }
}
