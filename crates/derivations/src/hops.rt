// Each piece's next hop towards piece k, breadth first from k, so that circles lead nowhere twice.
ghost use Rattle.std.specs.Prelude.{◌≡◌, ◌<◌, ◌≤◌, length};
ghost use Rattle.rules.specs.Fact.{AllWithin};
ghost use Rattle.records.specs.Record.{records};
ghost use Rattle.records.specs.Facts.{facts};
ghost use Rattle.records.specs.Kept.{picked};
ghost use Rattle.derivations.specs.Hops.{Hopped};
ghost use Rattle.derivations.specs.Sources.{Sources};
ghost use Rattle.matrices.specs.Matrix.{IsMatrix};
ghost use Rattle.records.specs.Sizes.{PIECES, RECORDS};

use records::Record;

// What stands for no record in a list of records' numbers: as an Option each would take twice the room on the caller's stack.
pub const NO_RECORD: usize = 65535;

// The same as such a list holds it.
const NO_SOURCE: u16 = 65535;

// The hops towards k along the steps in the matrix e: bit x of row y for "x is part of y".
pub fn find_hops(k: usize, n: usize, e: &[u64], hop: &mut [u16], order: &mut [u16])
    requires { (IsMatrix e.now) × (n ≤ PIECES) × (k < n) × (length hop.old ≡ PIECES) × (length order.old ≡ PIECES) }
    ensures { Hopped n e.now k hop.new }
{
    hop.fill(index::NONE);
    index::search_from(k, n, e, hop, order);
}

// The number of a record that says each piece's hop and may be cited; 65535 where there is none. One pass over the records.
pub fn find_sources(claim: Record, book: &[u8], hop: &[u16], source: &mut [u16])
    requires { (length hop.now ≡ PIECES) × (length source.old ≡ PIECES) × (records book.now ≤ RECORDS) × AllWithin PIECES (facts (picked book.now claim)) }
    ensures { Sources claim book.now hop.now (records book.now) source.new }
{
    source.fill(NO_SOURCE);
    for i in 0..book.len() / records::RECORD_BYTES {
        let r = records::record_at(book, i);
        if r.kind == records::PART && chain_format::lets(claim, r) && usize::from(hop[r.a]) == r.b {
            source[r.a] = i as u16;
        }
    }
}
