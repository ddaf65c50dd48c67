//! Where sets of spans are looked at: jobs in one direction of time, the search for crowds, and their marks.
//!
//! Of what is found here nothing is proved but that it is safe and ends; `set_reasons` counts it again.
ghost use Rattle.std.specs.Prelude.{All};
ghost use Rattle.cps_p_span.specs.Spans.{AreSpans, IsSmallAtom};

use crate::crowd::{Crowd, Marks};
use crate::detectable::find_precedences;
use crate::edge_finding::find_edges;
use crate::hints::Question;
use crate::jobs::Job;
use crate::not_first::find_not_first;
use crate::overload::{Overload, find_overload};
use crate::proposals::{crowd_of, loosened, mark_crowd, mark_overload, widened};
use crate::pushes::{Push, Pushed, SetRule, arrange};
use crate::theta_tree::{ThetaLambdaTree, ThetaTree};
use crate::timeline::{Timeline, Timelines};
use cps_instance::Span;
use cps_literal::Atom;
use cps_p_span::denied_place;
use cps_trail::Before;
use std::alloc::{AllocError, Global};

/// Room for the work on sets. Its memory is kept for the next look.
pub(crate) struct Desk {
    timelines: Timelines,
    /// Whether time is reversed.
    is_reversed: bool,
    tree: ThetaTree,
    gray_tree: ThetaLambdaTree,
    /// What the last survey found.
    pub(crate) pushes: Vec<Pushed>,
    pub(crate) marks: Marks,
    pub(crate) facts: Vec<Atom>,
}

// Written out, so that what drops a desk does not walk through its fields.
impl Drop for Desk {
    fn drop(self) {
        let Desk {
            timelines: _timelines,
            is_reversed: _is_reversed,
            tree: _tree,
            gray_tree: _gray_tree,
            pushes: _pushes,
            marks: _marks,
            facts: _facts,
        } = self;
    }
}

/// When a span starts at the earliest where a bound of it is true, by the direction of time.
fn time_of(question: &Question, span: &Span) -> i64 {
    let value = question.target.value;
    if question.is_reversed {
        return value.wrapping_add(span.length.unwrap_or(0)).wrapping_neg();
    }
    value
}

impl Desk {
    /// Room for the work.
    pub(crate) fn new(alloc: Global) -> Self {
        Desk {
            timelines: Timelines::new(alloc),
            is_reversed: false,
            tree: ThetaTree::new(alloc),
            gray_tree: ThetaLambdaTree::new(alloc),
            pushes: Vec::new(alloc),
            marks: Marks {
                whole: Vec::new(alloc),
                part: Vec::new(alloc),
            },
            facts: Vec::new(alloc),
        }
    }

    /// Lists the jobs among these spans.
    pub(crate) fn begin(&mut self, past: &Before, spans: &[Span]) -> Result<(), AllocError>
        requires { AreSpans past.now.first spans.now }
    {
        self.is_reversed = false;
        self.timelines.list(past, spans)
    }

    /// Puts the jobs in the orders that surveys ask for.
    pub(crate) fn prepare(&mut self) -> Result<(), AllocError> {
        self.timelines.sort_inner_times()
    }

    /// Reverses time.
    pub(crate) fn reverse(&mut self) {
        self.is_reversed = !self.is_reversed;
    }

    /// The jobs in the present direction of time.
    fn timeline(&self) -> &Timeline {
        self.timelines.facing(self.is_reversed)
    }

    /// Looks for pushes by a rule.
    fn find_pushes(&mut self, rule: SetRule) -> Result<(), AllocError> {
        let timeline = self.timelines.facing(self.is_reversed);
        self.pushes.clear();
        match rule {
            SetRule::Detectable => find_precedences(timeline, &mut self.tree, &mut self.pushes),
            SetRule::NotFirst => {
                let opposite = self.timelines.facing(!self.is_reversed);
                find_not_first(timeline, opposite, &mut self.tree, &mut self.pushes)
            }
            SetRule::EdgeFinding => find_edges(timeline, &mut self.gray_tree, &mut self.pushes),
        }
    }

    /// Looks for pushes by a rule, and puts them in the order in which they are counted.
    pub(crate) fn survey(&mut self, rule: SetRule) -> Result<(), AllocError> {
        self.find_pushes(rule)?;
        let is_first = !self.is_reversed && matches!(rule, SetRule::Detectable);
        arrange(&mut self.pushes, is_first);
        Ok(())
    }

    /// Marks the jobs of a window among `spans` spans that are needed to overfill it. Answers the longest window that they
    /// overfill.
    pub(crate) fn mark_window(
        &mut self,
        overload: Overload,
        spans: usize,
    ) -> Result<Overload, AllocError> {
        let timeline = self.timelines.facing(self.is_reversed);
        mark_overload(timeline.jobs.as_slice(), &overload, spans, &mut self.marks)?;
        Ok(widened(timeline, &overload, &mut self.marks))
    }

    /// A window that jobs overfill, if one is found.
    pub(crate) fn find_window(&mut self) -> Result<Option<Overload>, AllocError> {
        find_overload(self.timelines.facing(self.is_reversed), &mut self.tree)
    }

    /// The crowd that gives a push, if there is one. Its jobs are marked.
    fn crowd_for(
        &mut self,
        job: Job,
        push: Push,
        spans: usize,
    ) -> Result<Option<Crowd>, AllocError> {
        let timeline = self.timelines.facing(self.is_reversed);
        match crowd_of(timeline, &job, push, self.is_reversed) {
            Some(crowd) => {
                mark_crowd(timeline.jobs.as_slice(), &crowd, spans, &mut self.marks)?;
                Ok(Some(crowd))
            }
            None => Ok(None),
        }
    }

    /// The crowd that gives a push of the last survey among so many spans, if there is one. Its jobs are marked.
    pub(crate) fn next_crowd(
        &mut self,
        turn: usize,
        spans: usize,
    ) -> Result<Option<Crowd>, AllocError> {
        match self.pushes.get(turn) {
            Some(pushed) => {
                let pushed = *pushed;
                match self.job_at(pushed.index) {
                    Some(job) => self.crowd_for(job, pushed.push, spans),
                    None => Ok(None),
                }
            }
            None => Ok(None),
        }
    }

    /// The job at an index, if there is one.
    fn job_at(&self, index: usize) -> Option<Job> {
        match self.timeline().jobs.get(index) {
            Some(job) => Some(*job),
            None => None,
        }
    }

    /// The job of a place, if there is one.
    fn job_of(&self, place: usize) -> Option<Job> {
        for job in self.timeline().jobs.as_slice() {
            if job.place == place {
                return Some(*job);
            }
        }
        None
    }

    /// The crowd that gives what a question asks for, if there is one, in few words. Its jobs are marked.
    pub(crate) fn ask_crowd(
        &mut self,
        question: Question,
        span: &Span,
        spans: usize,
    ) -> Result<Option<Crowd>, AllocError>
        requires { All IsSmallAtom span.now.presence }
    {
        if question.is_reversed {
            self.reverse();
        }
        match self.job_of(question.place) {
            Some(found) => {
                let mut job = found;
                let mut push = question.push;
                push.time = time_of(&question, span);
                let denied = denied_place(span.presence.as_slice(), question.target);
                if denied < span.presence.as_slice().len() {
                    job.open = Some(denied);
                    push.time = job.latest_start.wrapping_add(1);
                }
                match self.crowd_for(job, push, spans)? {
                    Some(crowd) => {
                        let timeline = self.timelines.facing(self.is_reversed);
                        Ok(Some(loosened(timeline, &crowd, &mut self.marks)))
                    }
                    None => Ok(None),
                }
            }
            None => Ok(None),
        }
    }
}
