// The page of `why` without a claim: the chain behind refusal 14, the line of another refusal, or the counts' line.
ghost use Rattle.std.specs.Prelude.{◌≡◌, []};
ghost use Rattle.outcomes.specs.Fresh.{fresh_call};
ghost use Rattle.pages.specs.Put.{Put};
ghost use Rattle.chain_format.specs.Step.{steps};
ghost use Rattle.chain_pages.specs.StepLine.{step_lines};
ghost use Rattle.chain_pages.specs.ChainText.{Bytes};
ghost use Rattle.chain_pages.specs.Clash.{Shown, StepsOf, OfBook, Clash};

use outcomes::Counts;
use records::Refused;
use sentences::Whom;
use text::Form;

// The lines of steps, which are bytes.
fn put_lines(page: &mut [u8], at: usize, c: &[u8]) -> usize
    ensures put { Put page.old at (step_lines c.now (steps c.now)) page.new result }
    ensures bytes { Bytes c.now }
{
    crate::lines::put_steps(page, at, c)
}

// The writer's call, which works in these matrices.
fn write_clash(book: &[u8], steps: &mut [u8; chain_format::CHAIN_BYTES]) -> clash::Clash
    ensures { Shown book.now result.steps steps.new }
{
    let mut e = [0u64; matrices::WORDS];
    let mut d = [0u64; matrices::WORDS];
    let mut t = [0u64; matrices::WORDS];
    clash::write_clash(book, steps, &mut e, &mut d, &mut t)
}

// A fresh call on the book.
fn judge(book: &[u8]) -> Result<Counts, Refused>
    ensures { result ≡ fresh_call book.now [] }
{
    let mut e = [0u64; matrices::WORDS];
    let mut d = [0u64; matrices::WORDS];
    let mut t = [0u64; matrices::WORDS];
    answers::judge_run(book, &mut e, &mut d, &mut t)
}

// The lines of a chain behind the contradiction of a book, where it has one.
fn put_clash(page: &mut [u8], at: usize, book: &[u8]) -> usize
    ensures { StepsOf book.now page.old at page.new result }
{
    let mut c = [0u8; chain_format::CHAIN_BYTES];
    let written = write_clash(book, &mut c);
    let n = chain_format::STEP_BYTES * written.steps;
    put_lines(page, at, &c[..n])
}

// The text of a book that was read from the source.
fn clash_book(page: &mut [u8], source: &[u8], book: &[u8]) -> usize
    ensures { OfBook source.now book.now page.old page.new result }
{
    match judge(book) {
        Ok(counts) => report::put_counts(page, 0, counts.pieces, counts.nodes, counts.shadows),
        Err(refused) => {
            let at = sentences::put_refused_book(page, 0, refused, source);
            put_clash(page, at, book)
        }
    }
}

// The page of the book of a source: the refusal, and a chain behind it where it is 14; or the counts.
pub fn write_contradiction(source: &[u8], page: &mut [u8]) -> Option<usize>
    ensures { Clash source.now page.old page.new result }
{
    let mut book = [0u8; text::BOOK_ROOM];
    let read = sentences::sources::read_source(Form::Records, source, &mut book);
    match read {
        Err(unread) => sentences::write_unread_of(page, Whom::Book, unread),
        Ok(n) => {
            let end = clash_book(page, source, &book[..n]);
            pages::finish(page.len(), end)
        }
    }
}
