//! How many literals the known pairs have at one time.
ghost use Rattle.std.specs.Prelude.{◌≡◌, ◌+◌, ◌*◌, ◌≤◌, ◌<◌, ◌||◌, ◌==◌, if◌then◌else◌, length};
ghost use Rattle.gt_core.specs.Interference.{has_clause};
ghost use Rattle.formula_defs.specs.Coded.{literals_in};
ghost use Rattle.formula_defs.specs.Shift.{one_time};

use gt_core::pairs::Pairs;

/// How many literals the clause of a known pair has at a time: none, where one of its two literals is known by itself.
fn pair_size(pairs: &Pairs, l: u32, m: u32) -> u64
    ensures size { result ≡ (if l == m then 1 else if has_clause pairs.now.clauses l l || has_clause pairs.now.clauses m m then 0 else 2) }
    ensures few { result ≤ 2 }
{
    if l == m {
        return 1;
    }
    if pairs.has(l, l) || pairs.has(m, m) {
        return 0;
    }
    2
}

/// How many literals the clauses of the known pairs have at one time.
pub fn known_size(pairs: &Pairs) -> u64
    ensures size { result ≡ literals_in (one_time pairs.now.clauses) }
    ensures few { result ≤ 8589934592 }
{
    let mut size = 0;
    for i in 0..pairs.count() {
        let (l, m) = pairs.at(i);
        size += pair_size(pairs, l, m);
    }
    size
}
