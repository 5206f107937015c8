// The page of `verify`: whether a page of `why` passes.
ghost use Rattle.pages.specs.Put.{Put};
ghost use Rattle.chain_pages.specs.Verdict.{verdict_line, Verdict};

use sentences::Whom;
use text::Form;

fn put_verdict(page: &mut [u8], passes: bool) -> usize
    ensures { Put page.old 0 (verdict_line passes) page.new result }
{
    if passes {
        return pages::put(page, 0, b"PASSES\n");
    }
    pages::put(page, 0, b"FAILS\n")
}

// Whether the chain, a page that `why` may have printed about the book of a source, passes the check of R-2.
pub fn write_verdict(source: &[u8], chain: &[u8], page: &mut [u8]) -> Option<usize>
    ensures { Verdict source.now chain.now page.old page.new result }
{
    let mut book = [0u8; text::BOOK_ROOM];
    let read = sentences::sources::read_source(Form::Records, source, &mut book);
    match read {
        Err(unread) => sentences::write_unread_of(page, Whom::Book, unread),
        Ok(n) => {
            let passes = crate::verified::verify(&book[..n], chain);
            let end = put_verdict(page, passes);
            pages::finish(page.len(), end)
        }
    }
}
