// Rows of FIFO and LRU: the number of residents, the residents in search order, zeros.
ghost use Rattle.std.specs.Prelude.{◌≡◌, ◌^◌, ◌<◌, true, false, ◌∷◌, ◌++◌, length, take, drop};
ghost use Rattle.policy.specs.Search.{member, place};
ghost use Rattle.policy.specs.Stack.{OnLayout, fifo, lru, residents_of, touched_row, truncate_of, ways_of};

// The ways of a row: the words after the head word, as far as that can count them.
fn ways_of(row: &[u32]) -> usize
    ensures { result ≡ ways_of (drop 1 row.now) }
{
    row.len().saturating_sub(1).min(u32::MAX as usize)
}

// How many residents a row has.
fn count_of(row: &[u32]) -> usize
    ensures count { result ≡ length (residents_of row.now) }
    ensures width { result < 2 ^ 32 }
{
    match row {
        [head, words @ ..] => words.len().min(*head as usize),
        [] => 0,
    }
}

// The residents of a row, in search order.
pub fn residents(row: &[u32]) -> &[u32]
    ensures tags { result.now ≡ residents_of row.now }
    ensures fifo { OnLayout fifo }
    ensures lru { OnLayout lru }
{
    match row {
        [_, words @ ..] => &words[..count_of(row)],
        [] => row,
    }
}

// Whether the tag is among the words, and how many of them it was compared with.
pub(crate) fn find(words: &[u32], tag: u32) -> (bool, usize)
    ensures hit { result.0 ≡ member tag words.now }
    ensures comparisons { result.1 ≡ place tag words.now }
{
    match words.iter().position(|word| *word == tag) {
        Some(i) => (true, i + 1),
        None => (false, words.len()),
    }
}

// Puts the tag in front and moves every word up by one; the last one is dropped.
fn push_front(words: &mut [u32], tag: u32)
    ensures { words.new ≡ take (length words.old) (tag ∷ words.old) }
{
    if !words.is_empty() {
        words.rotate_right(1);
        words[0] = tag;
    }
}

// Puts the tag in front of the residents, over the one at `last`, and writes their number.
fn move_front(row: &mut [u32], last: usize, count: usize, tag: u32)
    requires place { last < length row.old }
    requires width { count < 2 ^ 32 }
    ensures { row.new ≡ count ∷ (take last (tag ∷ drop 1 row.old) ++ drop last (drop 1 row.old)) }
{
    push_front(&mut row[1..=last], tag);
    row[0] = count as u32;
}

// Leaves the residents as they are; a head word that names more than there are is lowered to their number.
pub(crate) fn keep(row: &mut [u32], tag: u32)
    requires { member tag (residents_of row.old) ≡ true }
    ensures { row.new ≡ touched_row fifo row.old tag }
{
    row[0] = count_of(row) as u32;
}

// Moves a resident, found at a place from 1, to the front.
pub(crate) fn promote(row: &mut [u32], at: usize, tag: u32)
    requires resident { member tag (residents_of row.old) ≡ true }
    requires place { at ≡ place tag (residents_of row.old) }
    ensures { row.new ≡ touched_row lru row.old tag }
{
    let count = count_of(row);
    move_front(row, at, count, tag);
}

// Puts a tag that is not resident in front of the residents; the last one makes room where there is none.
pub(crate) fn admit(row: &mut [u32], tag: u32)
    requires { member tag (residents_of row.old) ≡ false }
    ensures fifo { row.new ≡ touched_row fifo row.old tag }
    ensures lru { row.new ≡ touched_row lru row.old tag }
{
    if row.is_empty() {
        return;
    }
    let last = (count_of(row) + 1).min(ways_of(row));
    move_front(row, last, last, tag);
}

// Fills the narrow row with the first residents of the wide one, and zeros.
pub(crate) fn copy_first(wide: &[u32], narrow: &mut [u32])
    ensures { narrow.new ≡ truncate_of (length narrow.old) wide.now }
{
    narrow.fill(0);
    let kept = count_of(wide).min(narrow.len().saturating_sub(1));
    if kept > 0 {
        narrow[0] = kept as u32;
        narrow[1..=kept].copy_from_slice(&wide[1..=kept]);
    }
}
