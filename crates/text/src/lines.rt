// One line of text: what it says, by its words.
ghost use Rattle.std.specs.Prelude.{◌≡◌, [], ◌∷◌, ◌≤◌, length, drop, IfOk, IfErr};
ghost use Rattle.text.specs.Names.{kind_names, place, kind_of, choice_of};
ghost use Rattle.text.specs.Line.{bad_choice, lastly, secondly, kinded, logged, line_of};
ghost use Rattle.text.specs.Reading.{NumberAt, NoNumberAt};

use crate::words::{Word, is_word, next_word, read_number};
use crate::{Form, Reason};
use records::Record;

// A number and the place behind its word.
#[derive(Clone, Copy, Debug, PartialEq, Eq)]
pub struct Numbered {
    pub number: usize,
    pub next: usize,
}

// The kind of a fact, by its name.
#[tactic(auto, unfolding(crate::specs::Names::place))]
fn fact_kind(w: &[u8]) -> Option<u8>
    ensures { result ≡ place 1 kind_names w.now }
{
    if is_word(w, b"PART") {
        Some(records::PART)
    } else if is_word(w, b"APART") {
        Some(records::APART)
    } else if is_word(w, b"MEETS") {
        Some(records::MEETS)
    } else if is_word(w, b"NOTPART") {
        Some(records::NOTPART)
    } else {
        None
    }
}

#[tactic(auto, unfolding(crate::specs::Names::place, crate::specs::Names::kind_of))]
fn kind_of(form: Form, w: &[u8]) -> Option<u8>
    ensures { result ≡ kind_of form w.now }
{
    match form {
        Form::Log => None,
        Form::Claims => fact_kind(w),
        Form::Records => fact_kind(w).or(is_word(w, b"VOID").then_some(records::VOID)),
    }
}

// 0 or 1, where the word is one of two names.
#[tactic(auto, unfolding(crate::specs::Names::place))]
fn one_of(w: &[u8], first: &[u8], second: &[u8]) -> Option<u8>
    ensures { result ≡ place 0 (first.now ∷ second.now ∷ []) w.now }
{
    if is_word(w, first) {
        Some(0)
    } else if is_word(w, second) {
        Some(1)
    } else {
        None
    }
}

#[tactic(auto, unfolding(crate::specs::Names::choice_of))]
fn choice_of(form: Form, w: &[u8]) -> Option<u8>
    ensures { result ≡ choice_of form w.now }
{
    match form {
        Form::Log => None,
        Form::Claims => one_of(w, b"all", b"sheets"),
        Form::Records => one_of(w, b"sheet", b"scanner"),
    }
}

fn number_at(l: &[u8], at: usize) -> Result<Numbered, Reason>
    requires { at ≤ length l.now }
    ensures found { IfOk result (λ n. NumberAt l.now at n.number n.next) }
    ensures missing { IfErr result (NoNumberAt l.now at) }
{
    let Word { from, to } = next_word(l, at);
    let number = read_number(&l[from..to]).ok_or(Reason::NotNumber)?;
    Ok(Numbered { number, next: to })
}

fn bad_choice(form: Form) -> Reason
    ensures { result ≡ bad_choice form }
{
    match form {
        Form::Log => Reason::WordTooMany,
        Form::Claims => Reason::NotChoice,
        Form::Records => Reason::NotChoice,
    }
}

// What the words behind the numbers make of a line.
fn read_last(
    form: Form,
    kind: u8,
    a: usize,
    b: usize,
    l: &[u8],
    at: usize,
) -> Result<Record, Reason>
    requires { at ≤ length l.now }
    ensures { result ≡ lastly form kind a b (drop at l.now) }
{
    let Word { from, to } = next_word(l, at);
    if from == to {
        let origin = 0;
        return Ok(Record { kind, origin, a, b });
    }
    let origin = choice_of(form, &l[from..to]).ok_or(bad_choice(form))?;
    let v = next_word(l, to);
    if v.from != v.to {
        return Err(Reason::WordTooMany);
    }
    Ok(Record { kind, origin, a, b })
}

// What stands behind the first of two numbers.
fn read_second(form: Form, kind: u8, a: usize, l: &[u8], at: usize) -> Result<Record, Reason>
    requires { at ≤ length l.now }
    ensures { result ≡ secondly form kind a (drop at l.now) }
{
    if kind == records::VOID {
        return read_last(form, kind, a, 0, l, at);
    }
    let b = number_at(l, at)?;
    read_last(form, kind, a, b.number, l, b.next)
}

// What stands behind a kind.
fn read_numbers(form: Form, kind: u8, l: &[u8], at: usize) -> Result<Record, Reason>
    requires { at ≤ length l.now }
    ensures { result ≡ kinded form kind (drop at l.now) }
{
    let a = number_at(l, at)?;
    read_second(form, kind, a.number, l, a.next)
}

fn read_entry(l: &[u8]) -> Result<Record, Reason>
    ensures { result ≡ logged l.now }
{
    let a = number_at(l, 0)?;
    read_last(Form::Log, 0, a.number, 0, l, a.next)
}

// What one line says, a line of a text, or words that were joined: nothing where it has no word.
pub fn read_line(form: Form, l: &[u8]) -> Result<Option<Record>, Reason>
    ensures { result ≡ line_of form l.now }
{
    let Word { from, to } = next_word(l, 0);
    if from == to {
        return Ok(None);
    }
    if let Form::Log = form {
        return Ok(Some(read_entry(l)?));
    }
    let kind = kind_of(form, &l[from..to]).ok_or(Reason::NotKind)?;
    let entry = read_numbers(form, kind, l, to)?;
    Ok(Some(entry))
}
