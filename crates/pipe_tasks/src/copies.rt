// Copies of what a script holds.
ghost use Rattle.std.specs.Prelude.{◌≡◌, IfOk};

use handoff_data::{Line, Lines, NoMemory};
use std::alloc::Global;
use task_script::{ByteMap, Plan};

/// A copy of a plan as it stands. Answers `NoMemory` where memory runs out.
pub fn copy_plan(alloc: Global, plan: &Plan) -> Result<Plan, NoMemory>
    ensures { IfOk result (λ p. p ≡ plan.now) }
{
    Ok(match plan {
        Plan::Lines { left } => Plan::Lines {
            left: copy_lines(alloc, left)?,
        },
        Plan::Count { next, last } => Plan::Count {
            next: *next,
            last: *last,
        },
        Plan::Upper => Plan::Upper,
        Plan::Number { next } => Plan::Number { next: *next },
        Plan::Keep { prefix } => Plan::Keep {
            prefix: copy_line(alloc, prefix)?,
        },
        Plan::Drop { prefix } => Plan::Drop {
            prefix: copy_line(alloc, prefix)?,
        },
        Plan::Tally { n } => Plan::Tally { n: *n },
        Plan::Cat { side } => Plan::Cat { side: *side },
        Plan::Weave { side, ended } => Plan::Weave {
            side: *side,
            ended: *ended,
        },
        Plan::Pin { left, on } => Plan::Pin {
            left: *left,
            on: *on,
        },
        Plan::Table { map, last } => Plan::Table {
            map: copy_map(alloc, map)?,
            last: copy_lines(alloc, last)?,
        },
    })
}

fn copy_map(alloc: Global, map: &ByteMap) -> Result<ByteMap, NoMemory>
    ensures { IfOk result (λ m. m ≡ map.now) }
{
    Ok(ByteMap::new(Vec::from_slice(alloc, map.as_slice())?))
}

/// A copy of a line. Answers `NoMemory` where memory runs out.
pub fn copy_line(alloc: Global, line: &Line) -> Result<Line, NoMemory>
    ensures { IfOk result (λ l. l ≡ line.now) }
{
    Ok(Line::new(Vec::from_slice(alloc, line.as_slice())?))
}

// A copy of lines.
pub(crate) fn copy_lines(alloc: Global, lines: &Lines) -> Result<Lines, NoMemory>
    ensures { IfOk result (λ l. l ≡ lines.now) }
{
    let mut copy = Vec::with_capacity(alloc, lines.len())?;
    for index in 0..lines.len() {
        let Some(line) = lines.get(index) else {
            unreachable!()
        };
        copy.push(copy_line(alloc, line)?)?;
    }
    Ok(Lines::from_vec(copy))
}
