// Runs of bytes of one sort, words, and the number or the name that a word is.
ghost use Rattle.std.specs.Prelude.{◌≡◌, ◌+◌, ◌≤◌, length, drop};
ghost use Rattle.text.specs.Runs.{blank, of_sort, run};
ghost use Rattle.text.specs.Number.{number};
ghost use Rattle.text.specs.Names.{same};
ghost use Rattle.text.specs.Reading.{WordAt};

// The base of numbers in words, and the largest of them.
const TEN: usize = 10;

const LARGEST: usize = 65535;

// A sort of bytes: between words, in a word, in a line; in a number, outside numbers.
#[derive(Clone, Copy, Debug, PartialEq, Eq)]
pub enum Sort {
    Blank,
    Letter,
    Inner,
    Digit,
    Gap,
}

// The place of a word.
#[derive(Clone, Copy, Debug, PartialEq, Eq)]
pub struct Word {
    pub from: usize,
    pub to: usize,
}

#[tactic(auto, unfolding(crate::specs::Runs::blank))]
fn is_blank(x: u8) -> bool
    ensures { result ≡ blank x }
{
    matches!(x, b' ' | b'\t' | b'\r' | b'\n')
}

#[tactic(auto, unfolding(crate::specs::Runs::of_sort, crate::specs::Number::is_digit))]
fn is_of(sort: Sort, x: u8) -> bool
    ensures { result ≡ of_sort sort x }
{
    match sort {
        Sort::Blank => is_blank(x),
        Sort::Letter => !is_blank(x) && x != b'#',
        Sort::Inner => x != b'\n',
        Sort::Digit => x.is_ascii_digit(),
        Sort::Gap => !x.is_ascii_digit(),
    }
}

// Where a run of one sort ends that begins at `from`. By place: with a search of an iterator over the rest, a log took a third longer to read.
pub fn run_end(sort: Sort, l: &[u8], from: usize) -> usize
    requires { from ≤ length l.now }
    ensures { result ≡ from + length (run (of_sort sort) (drop from l.now)) }
{
    for i in from..l.len() {
        if !is_of(sort, l[i]) {
            return i;
        }
    }
    l.len()
}

pub fn next_word(l: &[u8], at: usize) -> Word
    requires { at ≤ length l.now }
    ensures { WordAt l.now at result.from result.to }
{
    let from = run_end(Sort::Blank, l, at);
    let to = run_end(Sort::Letter, l, from);
    Word { from, to }
}

// The number that a word is. It stops above 65,535, so no sum wraps.
pub fn read_number(w: &[u8]) -> Option<usize>
    ensures { result ≡ number w.now }
{
    if w.is_empty() {
        return None;
    }
    let mut n = 0;
    for &x in w {
        if !x.is_ascii_digit() {
            return None;
        }
        n = TEN * n + usize::from(x - b'0');
        if LARGEST < n {
            return None;
        }
    }
    Some(n)
}

// Whether a word is a name, in letters of either case.
pub fn is_word(w: &[u8], name: &[u8]) -> bool
    ensures { result ≡ same w.now name.now }
{
    w.eq_ignore_ascii_case(name)
}
