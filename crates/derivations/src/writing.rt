// The steps of a chain, written one after another into lent bytes.
ghost use Rattle.std.specs.Prelude.{◌≡◌, true, ◌+◌, ◌-◌, ◌*◌, ◌≤◌, ◌<◌, length};
ghost use Rattle.rules.specs.Fact as fact;
ghost use Rattle.chain_format.specs.Step.{step_at, shows};
ghost use Rattle.derivations.specs.Written.{Put};
ghost use Rattle.derivations.specs.Hops.{Reaches, hop_step};
ghost use Rattle.derivations.specs.Climbs.{Climbed, Contained};
ghost use Rattle.chain_format.specs.Sizes.{CHAIN-BYTES, STEP-BYTES, STEPS};
ghost use Rattle.derivations.specs.Sizes.{HOPS, LIFT-STEPS, WAY-STEPS};
ghost use Rattle.numbers.specs.Sizes.{SHORT-VALUES};
ghost use Rattle.records.specs.Sizes.{PIECES};

use chain_format::Step;

// A step whose numbers fit in sixteen bits: it is read back as it was.
pub fn put_step(c: &mut [u8], i: usize, s: Step)
    requires { (STEP-BYTES * i + STEP-BYTES ≤ length c.old) × (s.a < SHORT-VALUES) × (s.b < SHORT-VALUES) × (s.first < SHORT-VALUES) × (s.second < SHORT-VALUES) }
    ensures { Put c.old c.new i s }
{
    chain_format::put_step(c, i, s);
}

// The step that shows the hop from x to y.
fn hop_step(x: usize, y: usize, source: usize) -> Step
    ensures { result ≡ hop_step x y source }
{
    if source == crate::hops::NO_RECORD {
        return Step {
            rule: chain_format::RULE_F,
            kind: records::PART,
            a: x,
            b: y,
            first: 0,
            second: 0,
        };
    }
    Step {
        rule: chain_format::STORED,
        kind: records::PART,
        a: x,
        b: y,
        first: source,
        second: 0,
    }
}

// From g PART x, which the step before shows, to g PART k: a step for each hop, and one that joins it to the steps before. x goes from hop to hop, so
// no range has its places.
fn climb(
    g: usize,
    k: usize,
    from: usize,
    hop: &[u16],
    source: &[u16],
    c: &mut [u8],
    at: usize,
) -> usize
    requires { (length hop.now ≡ PIECES) × (length source.now ≡ PIECES) × (CHAIN-BYTES ≤ length c.old) × (1 ≤ at) × (at + WAY-STEPS ≤ STEPS) × (g < PIECES) × Reaches hop.now k from HOPS × (shows (step_at c.old (at - 1)) (fact.PART g from) ≡ true) }
    ensures { Climbed hop.now source.now k g from c.old at c.new result }
{
    let mut x = from;
    let mut i = at;
    while x != k {
        let y = usize::from(hop[x]);
        let t = usize::from(source[x]);
        put_step(c, i, hop_step(x, y, t));
        put_step(
            c,
            i + 1,
            Step {
                rule: chain_format::RULE_A,
                kind: records::PART,
                a: g,
                b: y,
                first: i - 1,
                second: i,
            },
        );
        i += 2;
        x = y;
    }
    i
}

// The steps that end in g PART k, where hops lead from g to k, from step `at` on; the number behind the last is returned.
pub fn write_part(g: usize, k: usize, hop: &[u16], source: &[u16], c: &mut [u8], at: usize) -> usize
    requires { (length hop.now ≡ PIECES) × (length source.now ≡ PIECES) × (CHAIN-BYTES ≤ length c.old) × (at + LIFT-STEPS ≤ STEPS) × (g < PIECES) × Reaches hop.now k g HOPS }
    ensures { Contained hop.now source.now k g c.old at c.new result }
{
    if g == k {
        put_step(
            c,
            at,
            Step {
                rule: chain_format::RULE_C,
                kind: records::PART,
                a: g,
                b: g,
                first: 0,
                second: 0,
            },
        );
        return at + 1;
    }
    let y = usize::from(hop[g]);
    let t = usize::from(source[g]);
    put_step(c, at, hop_step(g, y, t));
    climb(g, k, y, hop, source, c, at + 1)
}
