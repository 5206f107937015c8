// Words of the arguments that cannot be read: a command is told so before it opens a file.
ghost use Rattle.std.specs.Prelude.{◌≡◌, ◌≤◌, length};
ghost use Rattle.pages.specs.Written.{Page};
ghost use Rattle.sentences.specs.Arguments as args;
ghost use Rattle.book_pages.specs.WordsText.{words_text};
ghost use Rattle.sentences.specs.Rooms.{UNREAD-LINE};

use sentences::{Unread, Whom};
use text::Form;

// Whose words they are.
fn speaker(form: Form) -> Whom
    ensures { result ≡ args.speaker form }
{
    match form {
        Form::Claims => Whom::ClaimWords,
        Form::Records | Form::Log => Whom::Words,
    }
}

// The line of words that cannot be read, and nothing of words that can: 95 bytes always serve.
pub fn write_words(form: Form, words: &[u8], page: &mut [u8]) -> Option<usize>
    ensures page { Page page.old (words_text form words.now) page.new result }
    ensures words_len_bound { length (words_text form words.now) ≤ UNREAD-LINE }
{
    let said = sentences::sources::read_words(form, words);
    match said {
        Err(cause) => sentences::write_unread_of(page, speaker(form), Unread { line: 0, cause }),
        Ok(_) => pages::finish(page.len(), 0),
    }
}
