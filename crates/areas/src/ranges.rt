// Questions to a written area: whether it has a fact in a range of rows and a range of columns; and the range of a subtree.
ghost use Rattle.std.specs.Prelude.{◌≡◌, ℕ, ◌+◌, ◌*◌, ◌<◌, ◌≤◌, length, get_or};
ghost use Rattle.lists.specs.Any.{any_below};
ghost use Rattle.areas.specs.Between.{inside, RowsRise};
ghost use Rattle.areas.specs.Question.{Answers};

use crate::subtree::Range;
use index::TreeId;

// The first of the pairs below `count` whose row is at least `row`; `count` where there is none.
// By hand: the pairs lie flat in one list, of which `partition_point` has no view as pairs.
fn first_row(area: &[u16], count: usize, row: TreeId) -> usize
    requires { 2 * count ≤ length area.now }
    ensures { (result ≤ count) × (RowsRise area.now count → (i : ℕ) → i < result → get_or area.now (2 * i) 0 < row.0) }
{
    let mut low: usize = 0;
    let mut high = count;
    while low < high {
        let middle = low + (high - low) / 2;
        if usize::from(area[crate::PAIR * middle]) < row.0 {
            low = middle + 1;
        } else {
            high = middle;
        }
    }
    low
}

// Whether a row and a column lie in these ranges.
#[tactic(auto, unfolding(crate::specs::Between::inside))]
fn lies_inside(rows: Range, columns: Range, row: TreeId, column: TreeId) -> bool
    ensures { result ≡ inside rows.from.0 rows.to.0 columns.from.0 columns.to.0 row.0 column.0 }
{
    (rows.from.0..=rows.to.0).contains(&row.0)
        && (columns.from.0..=columns.to.0).contains(&column.0)
}

// Whether one of the pairs below `count` lies in these rows and columns.
fn in_rows(area: &[u16], count: usize, rows: Range, columns: Range) -> bool
    requires { 2 * count ≤ length area.now }
    ensures { RowsRise area.now count → result ≡ any_below (λ i. inside rows.from.0 rows.to.0 columns.from.0 columns.to.0 (get_or area.now (2 * i) 0) (get_or area.now (2 * i + 1) 0)) count }
{
    for i in first_row(area, count, rows.from)..count {
        let row = TreeId(usize::from(area[crate::PAIR * i]));
        if rows.to.0 < row.0 {
            return false;
        }
        let column = TreeId(usize::from(area[crate::PAIR * i + 1]));
        if lies_inside(rows, columns, row, column) {
            return true;
        }
    }
    false
}

// Whether a pair of the area lies in these rows and columns, ends included; in unordered kinds in either order.
pub fn fact_between(
    area: &[u16],
    count: usize,
    unordered: bool,
    rows: Range,
    columns: Range,
) -> bool
    ensures { Answers area.now count unordered rows.from.0 rows.to.0 columns.from.0 columns.to.0 result }
{
    if area.len() / crate::PAIR < count {
        return false;
    }
    in_rows(area, count, rows, columns) || unordered && in_rows(area, count, columns, rows)
}
