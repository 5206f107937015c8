// What the closure and the marks say of records and claims: whether a run is contradictory, and the answer to a claim.
#![tactic(auto)]

ghost use Rattle.std.specs.Prelude.{◌≡◌, true, not, ◌&&◌, ◌||◌, List, ℕ, ◌<◌, ◌≤◌, length};
ghost use Rattle.rules.specs.Fact.{fact_of, AllWithin};
ghost use Rattle.records.specs.Facts.{facts};
ghost use Rattle.closure.specs.Void.{void_of};
ghost use Rattle.verdicts.specs.ByMarks.{by_marks};
ghost use Rattle.matrices.specs.Matrix.{bit_of, IsMatrix};
ghost use Rattle.verdicts.specs.Opposed.{opposed};
ghost use Rattle.verdicts.specs.Tells.{Derived, Answered, Clashing};
ghost use Rattle.verdicts.specs.Answers.{answer_byte};
ghost use Rattle.matrices.specs.Sizes.{ROW-WORDS};
ghost use Rattle.records.specs.Sizes.{NOTPART, PART, PIECES};

use records::Record;

// What a book says of a claim.
#[derive(Clone, Copy, Debug, PartialEq, Eq)]
pub enum Answer {
    Follows,
    Denied,
    Open,
}

// The byte of an answer in lists and on pages.
impl From<Answer> for u8 {
    ghost use Rattle.verdicts.specs.Answers.{answer_byte};

    ghost from_gives = { λ answer byte. byte ≡ answer_byte answer };

    fn from(answer: Answer) -> u8 {
        match answer {
            Answer::Follows => 1,
            Answer::Denied => 2,
            Answer::Open => 3,
        }
    }
}

// Whether one of two pieces is marked.
#[tactic(auto, unfolding(closure::specs::Void::void_of))]
fn either_marked(voids: &[u64], a: usize, b: usize) -> bool
    requires { (length voids.now ≡ ROW-WORDS) × (a < PIECES) × (b < PIECES) }
    ensures { result ≡ (void_of voids.now a || void_of voids.now b) }
{
    matrices::has(voids, a) || matrices::has(voids, b)
}

// Whether of two pieces the second alone is marked.
#[tactic(auto, unfolding(closure::specs::Void::void_of))]
fn second_marked(voids: &[u64], a: usize, b: usize) -> bool
    requires { (length voids.now ≡ ROW-WORDS) × (a < PIECES) × (b < PIECES) }
    ensures { result ≡ (not (void_of voids.now a) && void_of voids.now b) }
{
    !matrices::has(voids, a) && matrices::has(voids, b)
}

// Whether a is marked, or part of b by the stored facts.
#[tactic(auto, unfolding(closure::specs::Void::void_of))]
fn part_or_marked(voids: &[u64], d: &[u64], a: usize, b: usize) -> bool
    requires { (length voids.now ≡ ROW-WORDS) × (IsMatrix d.now) × (a < PIECES) × (b < PIECES) }
    ensures { result ≡ (void_of voids.now a || bit_of d.now b a) }
{
    matrices::has(voids, a) || matrices::test(d, b, a)
}

// Whether the marks and the closure contradict a record.
#[tactic(auto, unfolding(crate::specs::Opposed::opposed, closure::specs::Void::void_of))]
fn opposes(r: Record, voids: &[u64], d: &[u64], t: &[u64]) -> bool
    requires { (length voids.now ≡ ROW-WORDS) × (IsMatrix d.now) × (IsMatrix t.now) × (PART ≤ r.kind → r.kind ≤ NOTPART → (r.a < PIECES) × (r.b < PIECES)) }
    ensures { result ≡ opposed (void_of voids.now) d.now t.now r }
{
    match r.kind {
        records::PART => second_marked(voids, r.a, r.b),
        records::APART => matrices::meet(t, r.a, d, r.b),
        records::MEETS => either_marked(voids, r.a, r.b),
        records::NOTPART => part_or_marked(voids, d, r.a, r.b),
        _ => false,
    }
}

// Whether the run is contradictory, where d and t are those of its facts: only stored facts are looked at.
pub fn clashes(run: &[u8], voids: &[u64], d: &[u64], t: &[u64]) -> bool
    requires { (length voids.now ≡ ROW-WORDS) × (IsMatrix d.now) × (IsMatrix t.now) × AllWithin PIECES (facts run.now) }
    ensures { Clashing (void_of voids.now) (facts run.now) d.now t.now result }
{
    for i in 0..run.len() / records::RECORD_BYTES {
        if opposes(records::record_at(run, i), voids, d, t) {
            return true;
        }
    }
    false
}

// Whether the marks alone tell the fact of a kind about a and b.
#[tactic(auto, unfolding(crate::specs::ByMarks::by_marks, closure::specs::Void::void_of, rules::specs::Fact::fact_of))]
pub fn marks_tell(kind: u8, a: usize, b: usize, voids: &[u64]) -> bool
    requires { (length voids.now ≡ ROW-WORDS) × (a < PIECES) × (b < PIECES) }
    ensures { result ≡ by_marks (void_of voids.now) (fact_of kind a b) }
{
    match kind {
        records::PART => matrices::has(voids, a),
        records::APART => either_marked(voids, a, b),
        records::MEETS => false,
        _ => second_marked(voids, a, b),
    }
}

// Whether the fact of a kind about two pieces that are not marked has a derivation from the facts whose closure is lent.
fn derived(
    kind: u8,
    a: usize,
    b: usize,
    d: &[u64],
    u: &[u64],
    p: &[u64],
    t: &[u64],
    q: &[u64],
) -> bool
    requires { (a < PIECES) × (b < PIECES) × (IsMatrix d.now) × (IsMatrix u.now) × (IsMatrix p.now) × (IsMatrix t.now) × (IsMatrix q.now) }
    ensures { Derived d.now u.now p.now t.now q.now kind a b result }
{
    match kind {
        records::PART => matrices::test(d, b, a),
        records::APART => matrices::meet(p, a, u, b),
        records::MEETS => matrices::meet(t, a, d, b),
        _ => matrices::meet(q, a, u, b),
    }
}

// The answer to a claim of a kind 1 to 4 about two pieces of which one is marked: the marks decide it.
fn answer_marked(kind: u8, a: usize, b: usize, voids: &[u64]) -> Answer
    requires { (PART ≤ kind) × (kind ≤ NOTPART) × (a < PIECES) × (b < PIECES) × (length voids.now ≡ ROW-WORDS) × ((void_of voids.now a || void_of voids.now b) ≡ true) }
    ensures { (d u p t q : List ℕ) → Answered (void_of voids.now) d u p t q kind a b (answer_byte result) }
{
    if marks_tell(kind, a, b, voids) {
        Answer::Follows
    } else {
        Answer::Denied
    }
}

// The answer to a claim of a kind 1 to 4. The kinds of opposite claims add up to 5.
pub fn answer_to(
    kind: u8,
    a: usize,
    b: usize,
    voids: &[u64],
    d: &[u64],
    u: &[u64],
    p: &[u64],
    t: &[u64],
    q: &[u64],
) -> Answer
    requires { (PART ≤ kind) × (kind ≤ NOTPART) × (a < PIECES) × (b < PIECES) × (length voids.now ≡ ROW-WORDS) × (IsMatrix d.now) × (IsMatrix u.now) × (IsMatrix p.now) × (IsMatrix t.now) × (IsMatrix q.now) }
    ensures { Answered (void_of voids.now) d.now u.now p.now t.now q.now kind a b (answer_byte result) }
{
    if either_marked(voids, a, b) {
        answer_marked(kind, a, b, voids)
    } else if derived(kind, a, b, d, u, p, t, q) {
        Answer::Follows
    } else if derived(records::OPPOSITES - kind, a, b, d, u, p, t, q) {
        Answer::Denied
    } else {
        Answer::Open
    }
}
