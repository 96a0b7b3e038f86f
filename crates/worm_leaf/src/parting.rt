//! Where two keys part.
ghost use Rattle.std.specs.Prelude.{◌≡◌, ◌≤◌, length, take};
ghost use Rattle.std.specs.declared.cmp.Ordering.TheVariants.{Less};
ghost use Rattle.rdb_base.specs.Order.{key_cmp};
ghost use Rattle.worm_leaf.specs.Anchors.{IsAnchor};

/// How many bytes of `first` are needed to be above `last`: those that both have in common, and one more.
pub(crate) fn parting_length(last: &[u8], first: &[u8]) -> usize
    requires below { key_cmp last.now first.now ≡ Less }
    ensures anchor { IsAnchor last.now first.now (take result first.now) }
    ensures within { result ≤ length first.now }
{
    let mut n = 0;
    'common: while n < last.len() && n < first.len() {
        if last[n] != first[n] {
            return n + 1;
        }
        n += 1;
    }
    n + 1
}
