// The words of a table's levels, as an open and a flush write them.
ghost use Rattle.std.specs.Prelude.{◌≡◌, ◌+◌, ◌-◌, ◌<◌, ◌≤◌, ◌&&◌, ◌++◌, length, drop, replicate};
ghost use Rattle.standalone.specs.Rows.{laid};
ghost use Rattle.bench.specs.OpenLines.{kins_of, wide_of};
ghost use Rattle.bench.specs.Level.{level_words};
ghost use Rattle.bench.specs.Spans.{FamiliesFit, LevelsFit};
ghost use Rattle.bench.specs.Start.{any_of, started_level, started_lines};
ghost use Rattle.bench.specs.Started.{FamiliesStarted, LevelsStarted, new_row};
ghost use Rattle.policy.specs.Suite.{nesting};
ghost use Rattle.bench.specs.Words.{line_words, lines_words, wide};

use crate::open_line::{OpenLine, Span};
use policy::suite::Suite;
use policy::three::Member;

// Whether a policy nests.
fn nests(member: Member) -> bool
    ensures { result ≡ nesting member }
{
    matches!(member, Member::First | Member::Second)
}

// Whether a line has more than one way, and is of the policy.
fn is_wide_of(line: &OpenLine, member: Member) -> bool
    ensures { result ≡ wide_of member line.now }
{
    line.geometry.ways > 1 && member == line.geometry.member
}

// Whether one of the wider lines is of the policy.
fn any_of(lines: &[OpenLine], member: Member) -> bool
    ensures { result ≡ any_of member (wide (kins_of lines.now)) }
{
    lines.iter().any(|line| is_wide_of(line, member))
}

// Whether a row of the policy follows: the policy nests, and one of the later lines is of it.
fn follows(member: Member, later: &[OpenLine]) -> bool
    ensures { result ≡ (nesting member && any_of member (wide (kins_of later.now))) }
{
    nests(member) && any_of(later, member)
}

// Starts one row: a follower's lead word is 1 and its other words are 0; a leader's lead word is 0, and its policy starts the rest.
fn start_row<S: Suite>(policies: &S, member: Member, follows: bool, row: &mut [u32])
    requires { 0 < length row.old }
    ensures { row.new ≡ new_row S.suite follows member (length row.old - 1) }
{
    if follows {
        row.fill(0);
        row[0] = 1;
    } else {
        row[0] = 0;
        policies.start(member, &mut row[1..]);
    }
}

// Starts the rows of a line, one for each set.
fn start_line<S: Suite>(
    policies: &S,
    member: Member,
    follows: bool,
    sets: usize,
    ways: usize,
    words: &mut [u32],
)
    requires few { ways ≤ 16 }
    requires room { line_words sets ways ≤ length words.old }
    ensures { words.new ≡ laid (replicate sets (new_row S.suite follows member (ways + 1))) ++ drop (line_words sets ways) words.old }
{
    let width = ways + 2;
    // By index: after `chunks_exact_mut` a proof would know only the length of the words.
    for set in 0..sets {
        let from = set * width;
        let to = from + width;
        start_row(policies, member, follows, &mut words[from..to]);
    }
}

// Starts the rows of the wider lines of a level, one line after the other.
fn start_lines<S: Suite>(policies: &S, lines: &[OpenLine], sets: usize, words: &mut [u32])
    requires { lines_words sets (wide (kins_of lines.now)) ≤ length words.old }
    ensures { words.new ≡ started_lines S.suite sets (wide (kins_of lines.now)) ++ drop (lines_words sets (wide (kins_of lines.now))) words.old }
{
    let Some((line, later)) = lines.split_first() else {
        return;
    };
    let (member, ways) = (line.geometry.member, line.geometry.ways);
    if ways <= 1 {
        start_lines(policies, later, sets, words);
        return;
    }
    let size = sets * (ways + 2);
    let follower = follows(member, later);
    let (rows, words) = words.split_at_mut(size);
    start_line(policies, member, follower, sets, ways, rows);
    start_lines(policies, later, sets, words);
}

// Starts a level: an empty direct-mapped cache, then the rows of its wider lines.
fn start_level<S: Suite>(policies: &S, lines: &[OpenLine], sets: usize, words: &mut [u32])
    requires { level_words sets (kins_of lines.now) ≤ length words.old }
    ensures { words.new ≡ started_level S.suite (record { sets = sets; lines = kins_of lines.now }) ++ drop (level_words sets (kins_of lines.now)) words.old }
{
    let (direct, rows) = words.split_at_mut(2 * sets);
    direct.fill(0);
    start_lines(policies, lines, sets, rows);
}

// Starts the levels of one block size.
fn start_levels<S: Suite>(policies: &S, lines: &[OpenLine], words: &mut [u32])
    requires { LevelsFit lines.now (length words.old) }
    ensures { LevelsStarted S.suite lines.now words.old words.new }
{
    let Some(first) = lines.first() else {
        return;
    };
    let Span {
        lines: count,
        words: size,
    } = first.level;
    let sets = first.geometry.sets();
    let (here, later) = lines.split_at(count);
    let (words, later_words) = words.split_at_mut(size);
    start_level(policies, here, sets, words);
    start_levels(policies, later, later_words);
}

// Starts all levels of a table: nothing is resident.
pub(crate) fn start_families<S: Suite>(policies: &S, lines: &[OpenLine], words: &mut [u32])
    requires { FamiliesFit lines.now (length words.old) }
    ensures { FamiliesStarted S.suite lines.now words.old words.new }
{
    let Some(first) = lines.first() else {
        return;
    };
    let Span {
        lines: count,
        words: size,
    } = first.family;
    let (here, later) = lines.split_at(count);
    let (words, later_words) = words.split_at_mut(size);
    start_levels(policies, here, words);
    start_families(policies, later, later_words);
}
