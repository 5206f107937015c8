// Groups of pieces that are PART of each other, numbered in the order of their lowest members.
#![tactic(auto)]

ghost use Rattle.std.specs.Prelude.{◌≡◌, Bool, ℕ, ◌+◌, ◌-◌, length, get_or};
ghost use Rattle.groups.specs.Grouped.{Edged, Grouped};
ghost use Rattle.groups.specs.Ranks.{Numerable, Ranked, Arrangeable, Arranged};
ghost use Rattle.groups.specs.Search.{Searchable};
ghost use Rattle.matrices.specs.Sizes.{ROWS};

use matrices::RowNumbers;

pub mod components;

// The groups in the order of their lowest members: the number of each piece's group, its lowest member, and how many there are. `heads` has the
// lowest member of each number of the search.
fn number_groups(
    n: usize,
    done: &RowNumbers,
    number: &mut [u16],
    lead: &mut [u16],
    heads: &mut [u16],
) -> usize
    requires { Numerable n done.now (length number.old) (length lead.old) (length heads.old) }
    ensures { Ranked n (λ x. get_or done.now x 0) number.new lead.new result }
{
    heads.fill(index::NONE);
    let mut k: usize = 0;
    for g in 0..n {
        let f = usize::from(done[g]);
        let t = heads[f];
        if t == index::NONE {
            heads[f] = g as u16;
            number[g] = k as u16;
            lead[g] = g as u16;
            k += 1;
        } else {
            number[g] = number[usize::from(t)];
            lead[g] = t;
        }
    }
    k
}

// The followers, and then the m leaders in the order in which their groups ended.
fn arrange(n: usize, m: usize, done: &RowNumbers, lead: &[u16], order: &mut [u16])
    requires { Arrangeable n m done.now lead.now (length order.old) }
    ensures { Arranged n m done.now lead.now order.new }
{
    let from = n - m;
    let mut j: usize = 0;
    for g in 0..n {
        if usize::from(lead[g]) == g {
            order[from + usize::from(done[g])] = g as u16;
        } else {
            order[j] = g as u16;
            j += 1;
        }
    }
}

// Each piece's group and the group's lowest member, an order of the pieces in which of two leaders the part comes first, and how many groups there are.
pub fn group(n: usize, e: &[u64], number: &mut [u16], lead: &mut [u16], order: &mut [u16]) -> usize
    requires { Searchable n e.now (length number.old) × (length lead.old ≡ ROWS) × (length order.old ≡ ROWS) }
    ensures { (fact : ℕ → ℕ → Bool) → Edged n fact e.now → Grouped n fact number.new lead.new order.new result }
{
    let done = components::search(n, e);
    let m = number_groups(n, &done, number, lead, order);
    arrange(n, m, &done, lead, order);
    m
}
