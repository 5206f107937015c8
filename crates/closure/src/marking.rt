// The marks of a book as a row of bits.
ghost use Rattle.std.specs.Prelude.{◌≡◌, ◌||◌, ℕ, ◌<◌, length};
ghost use Rattle.records.specs.Marked.{marks, marked};
ghost use Rattle.closure.specs.Void.{void_of, Voids, Markable};
ghost use Rattle.matrices.specs.Sizes.{ROW-WORDS};
ghost use Rattle.records.specs.Sizes.{PIECES, VOID};

use records::Record;

// Sets the bit of the piece that a record marks, if it is a mark.
fn mark_record(r: Record, voids: &mut [u64])
    requires { (length voids.old ≡ ROW-WORDS) × (r.kind ≡ VOID → r.a < PIECES) }
    ensures { (g : ℕ) → g < PIECES → void_of voids.new g ≡ (marks g r || void_of voids.old g) }
{
    if r.kind == records::VOID {
        matrices::put(voids, r.a);
    }
}

// The pieces that the whole book marks, of either origin and wherever the record stands.
pub fn mark_voids(book: &[u8], voids: &mut [u64])
    requires { Markable book.now × (length voids.old ≡ ROW-WORDS) }
    ensures { Voids voids.new × (void_of voids.new ≡ marked book.now) }
{
    voids.fill(0);
    for i in 0..book.len() / records::RECORD_BYTES {
        mark_record(records::record_at(book, i), voids);
    }
}
