ghost use Rattle.std.specs.Prelude.{◌≡◌, ℕ, [], ◌∷◌, ◌++◌, Some, None, OnOk, OnErr, IfOk, MatchOption, if◌then◌else◌};
ghost use Rattle.pipe_tasks.specs.Plans.{wants, says, next, last, closed, made, other_side};

use crate::appending::append_lines;
use crate::copies::copy_lines;
use crate::text::{decimal_line, number_line, uppercase_line};
use handoff_data::{Line, Lines, NoMemory};
use std::alloc::Global;
use task_script::Plan;

/// The side that a plan reads next, 0 or 1; none for a source.
pub fn wanted_side(plan: &Plan) -> Option<u32>
    ensures { result ≡ wants plan.now }
{
    match plan {
        Plan::Lines { .. } | Plan::Count { .. } => None,
        Plan::Upper
        | Plan::Number { .. }
        | Plan::Keep { .. }
        | Plan::Drop { .. }
        | Plan::Tally { .. }
        | Plan::Pin { .. }
        | Plan::Table { .. } => Some(0),
        Plan::Cat { side } | Plan::Weave { side, .. } => Some((*side).min(1)),
    }
}

/// Makes the next line of a source, or none where it has ended. The plan moves on with a line, and stays as it was
/// where there is none, so that a source which has ended stays so. A refusal leaves it as it was too. Answers
/// `NoMemory` where memory runs out.
pub fn make_line(alloc: Global, plan: &mut Plan) -> Result<Option<Line>, NoMemory>
    requires { wants plan.old ≡ None }
    ensures line { IfOk result
        (λ r. MatchOption r (made plan.old ≡ None) (λ line. made plan.old ≡ Some (line, plan.new))) }
    ensures ended { IfOk result (λ r. r ≡ None → plan.new ≡ plan.old) }
    ensures err { OnErr result (plan.new ≡ plan.old) }
{
    match plan {
        Plan::Lines { left } => Ok(left.pop()),
        Plan::Count { next, last } => {
            if *next > *last {
                return Ok(None);
            }
            let line = decimal_line(alloc, *next)?;
            if *next < *last {
                *next += 1;
            } else {
                *next = 1;
                *last = 0;
            }
            Ok(Some(line))
        }
        _ => unreachable!(),
    }
}

/// Gives a plan a line of the side that it wants: the lines that it puts out are added to `out`, and the plan moves on.
/// The line is moved, and its bytes are changed in place or copied once where they get longer. A refusal leaves the
/// plan and `out` as they were. Answers `NoMemory` where memory runs out.
pub fn step_plan(
    alloc: Global,
    plan: &mut Plan,
    side: u32,
    line: Line,
    out: &mut Lines,
) -> Result<(), NoMemory>
    requires { wants plan.old ≡ Some side }
    ensures plan { OnOk result (plan.new ≡ next plan.old side line) }
    ensures lines { OnOk result (out.new ≡ out.old ++ says plan.old side line) }
    ensures err { OnErr result ((plan.new ≡ plan.old) × (out.new ≡ out.old)) }
{
    if let Some(line) = said_line(alloc, plan, side, line)? {
        out.push(line)?;
    }
    move_plan(plan);
    Ok(())
}

/// The line that a plan puts out for a line of the side that it wants, if it puts one out; it puts out no more than
/// one. The line is moved, and its bytes are changed in place or copied once where they get longer. The plan stays:
/// `move_plan` moves it on. Answers `NoMemory` where memory runs out.
pub fn said_line(
    alloc: Global,
    plan: &Plan,
    side: u32,
    line: Line,
) -> Result<Option<Line>, NoMemory>
    requires { wants plan.now ≡ Some side }
    ensures { IfOk result (λ r. MatchOption r (says plan.now side line ≡ []) (λ l. says plan.now side line ≡ l ∷ [])) }
{
    Ok(match plan {
        Plan::Lines { .. } | Plan::Count { .. } => unreachable!(),
        Plan::Upper => Some(uppercase_line(line)),
        Plan::Number { next } => Some(number_line(alloc, *next, line)?),
        Plan::Keep { prefix } => {
            if begins_with(&line, prefix) {
                Some(line)
            } else {
                None
            }
        }
        Plan::Drop { prefix } => {
            if begins_with(&line, prefix) {
                None
            } else {
                Some(line)
            }
        }
        Plan::Tally { .. } => None,
        Plan::Cat { .. } | Plan::Weave { .. } | Plan::Pin { .. } => Some(line),
        Plan::Table { map, .. } => Some(map.map_line(line)),
    })
}

/// Moves a plan on after a line, whichever it was.
pub fn move_plan(plan: &mut Plan)
    ensures { (side : ℕ) (line : _) → plan.new ≡ next plan.old side line }
{
    match plan {
        Plan::Number { next } => *next = next.saturating_add(1),
        Plan::Tally { n } => *n = n.saturating_add(1),
        Plan::Weave { side, ended } => {
            if !*ended {
                *side = other(*side);
            }
        }
        Plan::Pin { left, on } => {
            *on = *left > 0;
            *left = left.saturating_sub(1);
        }
        _ => (),
    }
}

/// Tells a plan that the side that it wants has ended: the lines that it puts out for that are added to `out`. Answers
/// whether the plan goes on, which is then moved on, and else stays as it was. A refusal leaves the plan and `out` as
/// they were. Answers `NoMemory` where memory runs out.
pub fn end_plan(
    alloc: Global,
    plan: &mut Plan,
    side: u32,
    out: &mut Lines,
) -> Result<bool, NoMemory>
    requires { wants plan.old ≡ Some side }
    ensures plan { IfOk result (λ on. closed plan.old side ≡ (if on then Some plan.new else None)) }
    ensures ended { IfOk result (λ on. on ≡ false → plan.new ≡ plan.old) }
    ensures lines { OnOk result (out.new ≡ out.old ++ last plan.old side) }
    ensures err { OnErr result ((plan.new ≡ plan.old) × (out.new ≡ out.old)) }
{
    match plan {
        Plan::Tally { n } => {
            out.push(decimal_line(alloc, *n)?)?;
            Ok(false)
        }
        Plan::Cat { side } => {
            if *side > 0 {
                return Ok(false);
            }
            *side = 1;
            Ok(true)
        }
        Plan::Weave { side, ended } => {
            if *ended {
                return Ok(false);
            }
            *side = other(*side);
            *ended = true;
            Ok(true)
        }
        Plan::Table { last, .. } => {
            append_lines(alloc, out, copy_lines(alloc, last)?)?;
            Ok(false)
        }
        _ => Ok(false),
    }
}

fn other(side: u32) -> u32
    ensures { result ≡ other_side side }
{
    if side == 0 { 1 } else { 0 }
}

fn begins_with(line: &Line, prefix: &Line) -> bool
    ensures { result ≡ has_prefix prefix.now line.now }
{
    line.as_slice().starts_with(prefix.as_slice())
}

ghost use Rattle.std.specs.Prelude.{false};
ghost use Rattle.pipe_tasks.specs.Words.{has_prefix};
