use crate::byte_map::ByteMap;
use crate::equal::same_lines;
use handoff_data::{Line, Lines};

/// What a text task puts out, for what it reads. A plan changes with each line that it takes. Counts are of 64 bits,
/// and one that has come to its last value stands still there.
#[derive(Drop)]
pub enum Plan {
    /// A source of these lines, the first of `left` next.
    Lines { left: Lines },
    /// A source of the numbers from `next` to `last` in decimal; of none where `last` is below `next`.
    Count { next: u64, last: u64 },
    /// Each line with the bytes `a` to `z` as `A` to `Z`.
    Upper,
    /// Each line after its number in decimal and a space; the next line gets `next`.
    Number { next: u64 },
    /// The lines that begin with `prefix`.
    Keep { prefix: Line },
    /// The lines that don't begin with `prefix`.
    Drop { prefix: Line },
    /// At the end, how many lines there were in decimal: `n` so far.
    Tally { n: u64 },
    /// All lines of side 0, and then all lines of side 1. The lines of `side` are read now.
    Cat { side: u32 },
    /// One line of side 0, one of side 1, in turn, and the rest of the other where one has ended. The next line is read
    /// from `side`, and `ended` says that the other side has ended.
    Weave { side: u32, ended: bool },
    /// Each line. Its task is to be migration-disabled while `on`, which is from its first line on, for as many lines
    /// as `left` says at the beginning or until the input ends; `left` of them are still to come.
    Pin { left: u64, on: bool },
    /// Each line with each byte as `map` has it, and at the end the lines `last`.
    Table { map: ByteMap, last: Lines },
}

impl Plan {
    ghost use Rattle.std.specs.Prelude.{◌≡◌, ◌↔◌, IsTrue};

    /// Whether both plans are the same, and at the same place of their work.
    pub fn equals(&self, other: &Plan) -> bool
        ensures { IsTrue result ↔ (self.now ≡ other.now) }
    {
        match (self, other) {
            (Plan::Lines { left }, Plan::Lines { left: other_left }) => {
                same_lines(left, other_left)
            }
            (
                Plan::Count { next, last },
                Plan::Count {
                    next: other_next,
                    last: other_last,
                },
            ) => *next == *other_next && *last == *other_last,
            (Plan::Upper, Plan::Upper) => true,
            (Plan::Number { next }, Plan::Number { next: other_next }) => *next == *other_next,
            (
                Plan::Keep { prefix },
                Plan::Keep {
                    prefix: other_prefix,
                },
            ) => prefix.equals(other_prefix),
            (
                Plan::Drop { prefix },
                Plan::Drop {
                    prefix: other_prefix,
                },
            ) => prefix.equals(other_prefix),
            (Plan::Tally { n }, Plan::Tally { n: other_n }) => *n == *other_n,
            (Plan::Cat { side }, Plan::Cat { side: other_side }) => *side == *other_side,
            (
                Plan::Weave { side, ended },
                Plan::Weave {
                    side: other_side,
                    ended: other_ended,
                },
            ) => *side == *other_side && *ended == *other_ended,
            (
                Plan::Pin { left, on },
                Plan::Pin {
                    left: other_left,
                    on: other_on,
                },
            ) => *left == *other_left && *on == *other_on,
            (
                Plan::Table { map, last },
                Plan::Table {
                    map: other_map,
                    last: other_last,
                },
            ) => map.equals(other_map) && same_lines(last, other_last),
            _ => false,
        }
    }
}
