// The lines of a table, and what is asked of them.
ghost use Rattle.std.specs.Prelude.{◌≡◌, ◌≤◌, [], ◌∷◌, ◌++◌, map, length, IfOk, None, OnOk};
ghost use Rattle.geometry.specs.Line.{GeometryOf, line_questions};
ghost use Rattle.geometry.specs.Refusal.{Answers, ask};
ghost use Rattle.bench.specs.Opened.{in_order, lines_refusal, table_refusal};
ghost use Rattle.bench.specs.Refused.{LinesFromOne, TableAnswer};
ghost use Rattle.bench.specs.Spans.{configs};
ghost use Rattle.bench.specs.Table.{config_of};

use crate::link::link;
use crate::open_line::OpenLine;
use crate::refused::Refused;
use crate::table::{MOST_LINES, Table};
use arrayvec::ArrayVec;
use geometry::geometry::Geometry;
use geometry::line::Line;
use geometry::refusal::Refusal;
use policy::suite::Suite;

// Whether a line may stand after the last one, if there is one.
fn in_order(last: Option<Line>, line: &Line) -> bool
    ensures { result ≡ in_order last line.now }
{
    match last {
        None => true,
        Some(last) => last < *line,
    }
}

// The geometry of a line that is allowed and greater than the last one, or the first question that it does not pass.
fn check_line<S: Suite>(policies: &S, last: Option<Line>, line: &Line) -> Result<Geometry, Refusal>
    ensures passes { Answers (line_questions S.suite.three line.now ++ (ask 10 (in_order last line.now) ∷ [])) result }
    ensures geometry { IfOk result (λ g. GeometryOf S.suite.three line.now g) }
{
    let geometry = line.check(policies)?;
    if !in_order(last, line) {
        return Err(Refusal::Order);
    }
    Ok(geometry)
}

// Reads lines one after the other into a list, until one is refused; they do not know yet where their levels end. The
// list is lent, since a list that is handed on by value is copied whole.
fn read_lines<S: Suite>(
    policies: &S,
    lines: &[Line],
    read: &mut ArrayVec<OpenLine, MOST_LINES>,
) -> Result<(), Refused>
    requires few { length lines.now ≤ 64 }
    requires none { read.old.items ≡ [] }
    ensures passes { TableAnswer (lines_refusal S.suite.three 1 None lines.now) result }
    ensures from_one { LinesFromOne result }
    ensures configs { OnOk result (configs read.new.items ≡ map (config_of S.suite.three) lines.now) }
{
    let mut last = None;
    for line in lines {
        match check_line(policies, last, line) {
            Ok(geometry) => read.push(OpenLine::new(geometry)),
            Err(refusal) => {
                return Err(Refused {
                    refusal,
                    line: Some(read.len() + 1),
                });
            }
        }
        last = Some(*line);
    }
    Ok(())
}

impl Table {
    // A table without lines.
    pub(crate) fn empty() -> Table
        ensures { result.lines.items ≡ [] }
    {
        Table {
            lines: ArrayVec::new(),
            need: 0,
        }
    }

    // The table of these lines, or why it is refused.
    pub(crate) fn read<S: Suite>(policies: &S, lines: &[Line]) -> Result<Table, Refused>
        ensures passes { TableAnswer (table_refusal S.suite.three lines.now) result }
        ensures from_one { LinesFromOne result }
        ensures configs { IfOk result (λ t. configs t.lines.items ≡ map (config_of S.suite.three) lines.now) }
    {
        if !(1..=MOST_LINES).contains(&lines.len()) {
            return Err(Refusal::TableSize.into());
        }
        let mut read = ArrayVec::new();
        read_lines(policies, lines, &mut read)?;
        let need = link(&mut read);
        Ok(Table { lines: read, need })
    }
}

// Whether a bench could open a table of these lines in a workspace that is long enough, or why it is refused.
pub fn check_table<S: Suite>(policies: &S, lines: &[Line]) -> Result<(), Refused>
    ensures answer { TableAnswer (table_refusal S.suite.three lines.now) result }
    ensures from_one { LinesFromOne result }
{
    let _table = Table::read(policies, lines)?;
    Ok(())
}
