// Tree PLRU: the flags of a binary tree lead to the way that a miss fills.
ghost use Rattle.std.specs.Prelude.{◌≡◌, ◌+◌, ◌-◌, ◌%◌, ◌^◌, ◌<◌, ◌≤◌, map, length, if◌then◌else◌, Some, None};
ghost use Rattle.std.specs.List.{range_with_len};
ghost use Rattle.policy.specs.Search.{member, place};
ghost use Rattle.policy.specs.Plru.{
  OnTree,
  away_word,
  bit,
  depth_of,
  follow,
  leaf_at,
  leaf_of,
  leaf_or,
  leaf_touched,
  plru_meaning,
  tags_of,
  tree_of,
  with_bit,
};
ghost use Rattle.policy.specs.PlruLaws.{plru_lawful};

use crate::traits::Policy;

// The tree of pseudo-LRU, of 1, 2, 4, 8 or 16 ways; its letter is P.
#[derive(Clone, Copy)]
pub struct Plru;

// Bit 16 + i of the head word says that leaf i is filled.
const FILLED: u32 = 16;

// One bit of a word.
fn read_bit(word: u32, at: u32) -> u32
    requires { at < 32 }
    ensures { result ≡ bit word at }
{
    (word >> at) & 1
}

// The word with another bit at one place.
fn write_bit(word: u32, at: u32, value: u32) -> u32
    requires { (at < 32) × (value < 2) }
    ensures { result ≡ with_bit word at value }
{
    (word & !(1 << at)) | (value << at)
}

// The depth of the largest tree, of at most 16 leaves, that so many words hold.
fn depth_of(words: usize) -> u32
    ensures { result ≡ depth_of words }
{
    match words {
        0..=1 => 0,
        2..=3 => 1,
        4..=7 => 2,
        8..=15 => 3,
        _ => 4,
    }
}

// The filled leaf that holds the tag, and the tags that it was compared with.
fn search(head: u32, leaves: &[u32], tag: u32) -> (Option<usize>, usize)
    requires { length leaves.now ≤ 16 }
    ensures leaf { let ls = map (leaf_at head leaves.now) (range_with_len 0 (length leaves.now)) in result.0 ≡ (if member tag (tags_of ls) then Some (leaf_of tag ls) else None) }
    ensures comparisons { let ls = map (leaf_at head leaves.now) (range_with_len 0 (length leaves.now)) in result.1 ≡ place tag (tags_of ls) }
{
    let mut comparisons = 0;
    for (i, leaf) in leaves.iter().enumerate() {
        if read_bit(head, FILLED + i as u32) == 1 {
            comparisons += 1;
            if *leaf == tag {
                return (Some(i), comparisons);
            }
        }
    }
    (None, comparisons)
}

// The leaf that the flags lead to from the root.
fn victim_of(head: u32, depth: u32) -> usize
    requires { depth ≤ 4 }
    ensures { result ≡ follow (map (bit head) (range_with_len 0 (2 ^ depth - 1))) depth 1 - 2 ^ depth }
{
    let mut node = 1;
    for _ in 0..depth {
        node = 2 * node + read_bit(head, node - 1);
    }
    (node - (1 << depth)) as usize
}

// The leaf that holds the tag, if one was found, and else the one that the flags lead to.
fn leaf_or_victim(found: Option<usize>, head: u32, depth: u32) -> usize
    requires { depth ≤ 4 }
    ensures { result ≡ leaf_or found (follow (map (bit head) (range_with_len 0 (2 ^ depth - 1))) depth 1 - 2 ^ depth) }
{
    match found {
        Some(leaf) => leaf,
        None => victim_of(head, depth),
    }
}

// The leaf that a touch ends at, whether it held the tag, and the comparisons.
fn leaf_touched(head: u32, leaves: &[u32], tag: u32) -> (usize, bool, usize)
    requires { 0 < length leaves.now }
    ensures leaf { result.0 ≡ leaf_touched (tree_of head leaves.now) tag }
    ensures within { result.0 < 2 ^ depth_of (length leaves.now) }
    ensures hit { result.1 ≡ member tag (tags_of (tree_of head leaves.now).leaves) }
    ensures comparisons { result.2 ≡ place tag (tags_of (tree_of head leaves.now).leaves) }
{
    let depth = depth_of(leaves.len());
    let (found, comparisons) = search(head, &leaves[..1 << depth], tag);
    let hit = found.is_some();
    (leaf_or_victim(found, head, depth), hit, comparisons)
}

// The flag of a node's parent that points away from the node.
fn away_from(node: u32) -> u32
    ensures { result ≡ 1 - node % 2 }
{
    let side = node % 2;
    1 - side
}

// Points each flag on the path to the leaf away from it.
fn point_away(head: u32, depth: u32, leaf: usize) -> u32
    requires { (depth ≤ 4) × (leaf < 2 ^ depth) }
    ensures { result ≡ away_word head depth (2 ^ depth + leaf) }
{
    let mut head = head;
    let mut node = (1 << depth) + leaf as u32;
    for _ in 0..depth {
        let parent = node / 2;
        head = write_bit(head, parent - 1, away_from(node));
        node = parent;
    }
    head
}

// Touches the tree of a row: the leaf takes the tag, and the flags on its path point away.
fn touch_tree(row: &mut [u32], tag: u32) -> (bool, usize)
    ensures hit { result.0 ≡ (plru_meaning.touch row.old tag).hit }
    ensures comparisons { result.1 ≡ (plru_meaning.touch row.old tag).comparisons }
    ensures row { row.new ≡ (plru_meaning.touch row.old tag).row }
    ensures tree { OnTree row.old tag row.new result.0 result.1 }
{
    if row.len() < 2 {
        return (false, 0);
    }
    let head = row[0];
    let depth = depth_of(row.len() - 1);
    let (leaf, hit, comparisons) = leaf_touched(head, &row[1..], tag);
    row[0] = point_away(write_bit(head, FILLED + leaf as u32, 1), depth, leaf);
    row[1 + leaf] = tag;
    (hit, comparisons)
}

impl Policy for Plru {
    ghost meaning = { plru_meaning };

    ghost lawful = { plru_lawful };

    fn letter(&self) -> u8 {
        b'P'
    }

    fn takes(&self, ways: u64) -> bool {
        matches!(ways, 1 | 2 | 4 | 8 | 16)
    }

    fn start(&self, row: &mut [u32]) {
        row.fill(0);
    }

    fn touch(&self, row: &mut [u32], tag: u32) -> (bool, usize)
        ensures hit { result.0 ≡ (plru_meaning.touch row.old tag).hit }
        ensures comparisons { result.1 ≡ (plru_meaning.touch row.old tag).comparisons }
        ensures row { row.new ≡ (plru_meaning.touch row.old tag).row }
        ensures tree { OnTree row.old tag row.new result.0 result.1 }
    {
        touch_tree(row, tag)
    }
}
