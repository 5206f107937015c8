// Words and sentences on a page, by their numbers: each is a line of a table.
#![tactic(auto)]

ghost use Rattle.std.specs.Prelude.{◌≡◌, [], ◌++◌, ◌≤◌, length, ltb, codes};
ghost use Rattle.pages.specs.Text.{field};
ghost use Rattle.pages.specs.Decimal.{decimal};
ghost use Rattle.pages.specs.Put.{Put};
ghost use Rattle.pages.specs.Written.{Page};
ghost use Rattle.sentences.specs.Words.{kind_name, answer_name, agreement_name};
ghost use Rattle.sentences.specs.Refusals.{sentence, refusal_line, line_of, refused};
ghost use Rattle.sentences.specs.Unread as unread;
ghost use Rattle.sentences.specs.Unread.{whom_number, cause_number, prefix, reason_of, unread_line};
ghost use Rattle.sentences.specs.Rooms.{NUMBER, REFUSED-LINE, UNREAD-LINE};

use records::Refused;
use text::Reason;

pub mod sources;

// The reason of what should be a choice of origin, and its sentence for claims, which choose among facts.
const NOT_CHOICE: usize = 3;

const NOT_FACTS: usize = 8;

// The sentence of words that are too long.
const WORDS_TOO_LONG: usize = 7;

// The sentence of a text where records are wanted.
const NOT_RECORDS: usize = 6;

// The claims and the words, by the numbers of Whom.
const CLAIMS: usize = Whom::Claims as usize;

const WORDS: usize = Whom::Words as usize;

const CLAIM_WORDS: usize = Whom::ClaimWords as usize;

// Of whom a line of what cannot be read speaks, and the line of a refusal in a second book.
#[derive(Clone, Copy, Debug, PartialEq, Eq)]
pub enum Whom {
    Book,
    Second,
    Claims,
    Log,
    Words,
    ClaimWords,
}

// Why something cannot be read: a text's own reason; it is text where records are wanted; words are too long.
#[derive(Clone, Copy, Debug, PartialEq, Eq)]
pub enum Cause {
    Text(Reason),
    NotRecords,
    WordsTooLong,
}

// What cannot be read: the line, counted from 1, where there is one, and why.
#[derive(Clone, Copy, Debug, PartialEq, Eq)]
pub struct Unread {
    pub line: usize,
    pub cause: Cause,
}

// A kind's name and the byte behind it.
#[tactic(auto, unfolding(crate::specs::Words::kind_name))]
pub fn put_kind(page: &mut [u8], at: usize, kind: u8, last: u8) -> usize
    ensures { Put page.old at (field (kind_name kind) last) page.new result }
{
    let table = b"\nPART\nAPART\nMEETS\nNOTPART\n\nVOID\n";
    pages::put_entry(page, at, table, usize::from(kind), last)
}

// An answer's name and the byte behind it.
pub fn put_answer(page: &mut [u8], at: usize, answer: u8, last: u8) -> usize
    ensures { Put page.old at (field (answer_name answer) last) page.new result }
{
    let table = b"\nFOLLOWS\nDENIED\nOPEN\n";
    pages::put_entry(page, at, table, usize::from(answer), last)
}

// How two answers agree, and the byte behind it.
pub fn put_agreement(page: &mut [u8], at: usize, agreement: u8, last: u8) -> usize
    ensures { Put page.old at (field (agreement_name agreement) last) page.new result }
{
    let table = b"\nSAME\nONE OPEN\nOPPOSED\n";
    pages::put_entry(page, at, table, usize::from(agreement), last)
}

// A refusal's sentence and the end of its line.
#[tactic(auto, unfolding(crate::specs::Refusals::sentence))]
fn put_sentence(page: &mut [u8], at: usize, number: usize) -> usize
    ensures { Put page.old at (field (sentence number) 10) page.new result }
{
    let table =
        b"\na lent buffer is too short\n\nthe book is not whole records of six bytes\nthe book has more than 8192 records\nthis record has no known kind\nthis record has no known origin\nthis record names a piece above 2047\nthis record names a piece before its container\nthis record repeats an earlier one\nthe claims are not whole claims of six bytes\nthere are more than 4096 claims\nthis claim has no known kind or choice of facts\nthe book has no piece of that number\nthe records up to this one contradict each other\nthere is too little room for the steps\na grid has at most 64 pieces\nthere is too little room for the lists\nthere is no record of that number\nthis VOID record names a second piece, or piece 0\nthe log is not whole entries of two bytes, or has more than 32768\nthis entry names a piece that the book does not have\n";
    pages::put_entry(page, at, table, number, b'\n')
}

// The line of a text, which a number fits.
fn put_text_line(page: &mut [u8], at: usize, l: usize) -> usize
    ensures put { Put page.old at (codes "line " ++ field (decimal l) 32) page.new result }
    ensures l_len_bound { length (decimal l) ≤ NUMBER }
{
    let at = pages::put(page, at, b"line ");
    pages::put_number(page, at, l, b' ')
}

// The one line of a refusal; l is the line of the text that it speaks of, or 0.
pub fn put_refusal(page: &mut [u8], at: usize, number: usize, place: usize, l: usize) -> usize
    ensures put { Put page.old at (refusal_line number place l) page.new result }
    ensures l_len_bound { length (refusal_line number place l) ≤ REFUSED-LINE }
{
    let at = pages::put(page, at, b"REFUSED ");
    let at = pages::put_number(page, at, number, b' ');
    let at = pages::put_number(page, at, place, b' ');
    if l == 0 {
        return put_sentence(page, at, number);
    }
    let at = put_text_line(page, at, l);
    put_sentence(page, at, number)
}

// The line of a refusal's place, in the book or in the other source, the claims or the log; or 0.
pub fn line_of(number: usize, place: usize, book: &[u8], other: &[u8]) -> usize
    ensures { result ≡ line_of number place book.now other.now }
{
    let places = b"-----rrrrr--ccr----r-c";
    if places.len() <= number {
        return 0;
    }
    let counted = places[number];
    if counted == b'r' {
        text::line_in(book, place)
    } else if counted == b'c' {
        text::line_in(other, place)
    } else {
        0
    }
}

// The one line of a refusal at a place of the book, or of the other source.
pub fn put_refused(page: &mut [u8], at: usize, why: Refused, book: &[u8], other: &[u8]) -> usize
    ensures put { Put page.old at (refused why.refusal why.place book.now other.now) page.new result }
    ensures other_len_bound { length (refused why.refusal why.place book.now other.now) ≤ REFUSED-LINE }
{
    let number = usize::from(records::refusal_number(why.refusal));
    let l = line_of(number, why.place, book, other);
    put_refusal(page, at, number, why.place, l)
}

// The same, where there is no other source.
#[tactic(auto, unfolding(crate::specs::Refusals::refused))]
pub fn put_refused_book(page: &mut [u8], at: usize, why: Refused, book: &[u8]) -> usize
    ensures put { Put page.old at (refused why.refusal why.place book.now []) page.new result }
    ensures book_len_bound { length (refused why.refusal why.place book.now []) ≤ REFUSED-LINE }
{
    put_refused(page, at, why, book, &[])
}

// The number of whom the line speaks, by which the tables are entered.
pub fn whom_number(whom: Whom) -> usize
    ensures { result ≡ whom_number whom }
{
    match whom {
        Whom::Book => 0,
        Whom::Second => 1,
        Whom::Claims => 2,
        Whom::Log => 3,
        Whom::Words => 4,
        Whom::ClaimWords => 5,
    }
}

// The number of the reason, by which its sentence is found.
pub fn cause_number(cause: Cause) -> usize
    ensures { result ≡ cause_number cause }
{
    match cause {
        Cause::Text(reason) => usize::from(text::reason_number(reason)),
        Cause::NotRecords => NOT_RECORDS,
        Cause::WordsTooLong => WORDS_TOO_LONG,
    }
}

// Of whom the line speaks, by the number.
pub fn put_prefix(page: &mut [u8], at: usize, source: usize) -> usize
    ensures { Put page.old at (prefix source) page.new result }
{
    let table = b"\nSECOND \nCLAIMS \nLOG \nWORDS \nWORDS \n";
    pages::put_line(page, at, table, source)
}

// Of whom the line speaks.
pub fn put_prefix_of(page: &mut [u8], at: usize, whom: Whom) -> usize
    ensures { Put page.old at (prefix (whom_number whom)) page.new result }
{
    put_prefix(page, at, whom_number(whom))
}

// The number of a reason's sentence. Claims choose among facts, where records have an origin.
#[tactic(auto, unfolding(crate::specs::Unread::wording))]
fn wording(source: usize, reason: usize) -> usize
    ensures { result ≡ unread.wording source reason }
{
    let of_claims = source == CLAIMS || source == CLAIM_WORDS;
    if of_claims && reason == NOT_CHOICE {
        return NOT_FACTS;
    }
    reason
}

// A reason's sentence and the end of its line.
fn put_reason(page: &mut [u8], at: usize, source: usize, reason: usize) -> usize
    ensures { Put page.old at (field (reason_of source reason) 10) page.new result }
{
    let table =
        b"\nnot a kind\na number from 0 to 65535 is missing\nnot an origin: sheet or scanner\na word too many\nlonger than 524288 bytes\na book of records is wanted: pack it, or edit the text\nlonger than 4095 bytes\nnot a choice of facts: all or sheets\n";
    pages::put_entry(page, at, table, wording(source, reason), b'\n')
}

// Whether the line names one of a text: words have no lines.
fn has_lines(source: usize) -> bool
    ensures { result ≡ ltb source 4 }
{
    source < WORDS
}

// The one line of what cannot be read: the number of its first bad line, where there are lines, and the reason, by their numbers.
pub fn put_unread(page: &mut [u8], at: usize, source: usize, bad: usize, reason: usize) -> usize
    ensures put { Put page.old at (unread_line source bad reason) page.new result }
    ensures reason_len_bound { length (unread_line source bad reason) ≤ UNREAD-LINE }
{
    let at = put_prefix(page, at, source);
    let at = pages::put(page, at, b"UNREAD ");
    if !has_lines(source) {
        return put_reason(page, at, source, reason);
    }
    let at = put_text_line(page, at, bad);
    put_reason(page, at, source, reason)
}

// The same of what could not be read, and of whom.
pub fn put_unread_of(page: &mut [u8], at: usize, whom: Whom, unread: Unread) -> usize
    ensures put { Put page.old at (unread_line (whom_number whom) unread.line (cause_number unread.cause)) page.new result }
    ensures unread_len_bound { length (unread_line (whom_number whom) unread.line (cause_number unread.cause)) ≤ UNREAD-LINE }
{
    let reason = cause_number(unread.cause);
    put_unread(page, at, whom_number(whom), unread.line, reason)
}

// The line by its numbers, on a page of its own: 95 bytes always serve.
pub fn write_unread(page: &mut [u8], source: usize, bad: usize, reason: usize) -> Option<usize>
    ensures page { Page page.old (unread_line source bad reason) page.new result }
    ensures reason_len_bound { length (unread_line source bad reason) ≤ UNREAD-LINE }
{
    let end = put_unread(page, 0, source, bad, reason);
    pages::finish(page.len(), end)
}

// The same of what could not be read, and of whom.
pub fn write_unread_of(page: &mut [u8], whom: Whom, unread: Unread) -> Option<usize>
    ensures page { Page page.old (unread_line (whom_number whom) unread.line (cause_number unread.cause)) page.new result }
    ensures unread_len_bound { length (unread_line (whom_number whom) unread.line (cause_number unread.cause)) ≤ UNREAD-LINE }
{
    let reason = cause_number(unread.cause);
    write_unread(page, whom_number(whom), unread.line, reason)
}
