// The direct-mapped cache of a level.
ghost use Rattle.std.specs.Prelude.{◌≡◌, ◌+◌, ◌*◌, ◌<◌, length};
ghost use Rattle.bench.specs.Direct.{direct_after, direct_compared, direct_hit};

// Looks for the tag in its set, and on a miss takes it: whether it hit, and the comparisons.
pub(crate) fn visit_direct(words: &mut [u32], set: usize, tag: u32) -> (bool, u64)
    requires { 2 * set + 1 < length words.old }
    ensures hit { result.0 ≡ direct_hit words.old set tag }
    ensures comparisons { result.1 ≡ direct_compared words.old set }
    ensures words { words.new ≡ direct_after words.old set tag }
{
    let at = 2 * set;
    let filled = words[at] != 0;
    let hit = filled && words[at + 1] == tag;
    if !hit {
        words[at] = 1;
        words[at + 1] = tag;
    }
    (hit, filled as u64)
}
