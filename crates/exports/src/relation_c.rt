// Matrices of bits, for bench/relation.c. A slice that is no matrix and a row beyond 2,047 are left alone, or answered by false.
ghost use Rattle.std.specs.Prelude.{◌≡◌, false, ◌<◌, length};
ghost use Rattle.matrices.specs.Matrix.{United, common};
ghost use Rattle.exports.specs.Positions.{Either};
ghost use Rattle.matrices.specs.Sizes.{ROWS, WORDS};

#[unsafe(no_mangle)]
pub extern "C" fn relation_union_within(m: &mut [u64], d: usize, s: usize)
    ensures inside { length m.old ≡ WORDS → d < ROWS → s < ROWS → United m.old m.new d m.old s }
    ensures outside { ((length m.old ≡ WORDS) × (d < ROWS) × (s < ROWS) → ⊥) → m.new ≡ m.old }
{
    if m.len() == matrices::WORDS && d < matrices::ROWS && s < matrices::ROWS {
        matrices::union_within(m, d, s);
    }
}

#[unsafe(no_mangle)]
pub extern "C" fn relation_meet(m: &[u64], r: usize, n: &[u64], s: usize) -> bool
    ensures { Either ((length m.now ≡ WORDS) × (length n.now ≡ WORDS) × (r < ROWS) × (s < ROWS)) result (common m.now r n.now s) false }
{
    m.len() == matrices::WORDS
        && n.len() == matrices::WORDS
        && r < matrices::ROWS
        && s < matrices::ROWS
        && matrices::meet(m, r, n, s)
}
