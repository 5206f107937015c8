// Bits and parentheses, for bench/parentheses.c and tests/leaves/: of at most 2,560 bytes, the ones before position k, the position of the
// j-th 1, the positions that close and that enclose the parenthesis at open, and the first place past a node's subtree. A position that is
// missing is the number of bits. More bytes, a position beyond the bits and, for a close, one that opens nothing are answered by 0.
ghost use Rattle.std.specs.Prelude.{◌≡◌, true, false, ◌*◌, ◌<◌, ◌≤◌, length, get_or, ◌↔◌, IsTrue};
ghost use Rattle.parentheses.specs.Bits.{bits, bit_count};
ghost use Rattle.parentheses.specs.Rank.{rank, select};
ghost use Rattle.parentheses.specs.Close.{close};
ghost use Rattle.parentheses.specs.Enclose.{enclosing};
ghost use Rattle.parentheses.specs.Subtree.{after};
ghost use Rattle.parentheses.specs.Found.{found_below};
ghost use Rattle.exports.specs.Positions.{position_of, Either};
ghost use Rattle.index.specs.Sizes.{PARENTHESES-BYTES};

// Whether a parenthesis opens at a position of at most 2,560 bytes.
fn opens(bytes: &[u8], open: usize) -> bool
    ensures { IsTrue result ↔ ((length bytes.now ≤ PARENTHESES-BYTES) × («open» < bit_count bytes.now) × (get_or (bits bytes.now) «open» false ≡ true)) }
{
    bytes.len() <= index::PARENTHESES_BYTES
        && open < bytes.len() * parentheses::BYTE_BITS
        && parentheses::get(bytes, open)
}

#[unsafe(no_mangle)]
pub extern "C" fn parentheses_ones_before(bytes: &[u8], k: usize) -> usize
    ensures { Either ((length bytes.now ≤ PARENTHESES-BYTES) × (k ≤ bit_count bytes.now)) result (rank (bits bytes.now) k) 0 }
{
    if bytes.len() > index::PARENTHESES_BYTES || k > bytes.len() * parentheses::BYTE_BITS {
        return 0;
    }
    parentheses::ones_before(bytes, k)
}

#[unsafe(no_mangle)]
pub extern "C" fn parentheses_select(bytes: &[u8], j: usize) -> usize
    ensures { Either (length bytes.now ≤ PARENTHESES-BYTES) result (position_of (bit_count bytes.now) (found_below (bit_count bytes.now) (select (bits bytes.now) j))) 0 }
{
    if bytes.len() > index::PARENTHESES_BYTES {
        return 0;
    }
    parentheses::select(bytes, j).unwrap_or(bytes.len() * parentheses::BYTE_BITS)
}

#[unsafe(no_mangle)]
pub extern "C" fn parentheses_find_close(bytes: &[u8], open: usize) -> usize
    ensures { Either ((length bytes.now ≤ PARENTHESES-BYTES) × («open» < bit_count bytes.now) × (get_or (bits bytes.now) «open» false ≡ true)) result (position_of (bit_count bytes.now) (found_below (bit_count bytes.now) (close (bits bytes.now) «open»))) 0 }
{
    if !opens(bytes, open) {
        return 0;
    }
    parentheses::find_close(bytes, open).unwrap_or(bytes.len() * parentheses::BYTE_BITS)
}

// The same search with the ones before each byte counted first, as the calls do it.
#[unsafe(no_mangle)]
pub extern "C" fn parentheses_find_close_by(bytes: &[u8], open: usize) -> usize
    ensures { Either ((length bytes.now ≤ PARENTHESES-BYTES) × («open» < bit_count bytes.now) × (get_or (bits bytes.now) «open» false ≡ true)) result (position_of (bit_count bytes.now) (found_below (bit_count bytes.now) (close (bits bytes.now) «open»))) 0 }
{
    if !opens(bytes, open) {
        return 0;
    }
    let mut ranks = [0u16; index::PARENTHESES_BYTES + 1];
    parentheses::rank_bytes(bytes, &mut ranks);
    parentheses::find_close_by(bytes, &ranks, open).unwrap_or(bytes.len() * parentheses::BYTE_BITS)
}

#[unsafe(no_mangle)]
pub extern "C" fn parentheses_enclose(bytes: &[u8], open: usize) -> usize
    ensures { Either ((length bytes.now ≤ PARENTHESES-BYTES) × («open» ≤ bit_count bytes.now)) result (position_of (bit_count bytes.now) (enclosing (bits bytes.now) «open»)) 0 }
{
    if bytes.len() > index::PARENTHESES_BYTES || open > bytes.len() * parentheses::BYTE_BITS {
        return 0;
    }
    parentheses::enclose(bytes, open).unwrap_or(bytes.len() * parentheses::BYTE_BITS)
}

#[unsafe(no_mangle)]
pub extern "C" fn parentheses_subtree_end(bytes: &[u8], place: usize) -> usize
    ensures { Either (length bytes.now ≤ PARENTHESES-BYTES) result (after (bits bytes.now) place) 0 }
{
    if bytes.len() > index::PARENTHESES_BYTES {
        return 0;
    }
    parentheses::subtree_end(bytes, place)
}
