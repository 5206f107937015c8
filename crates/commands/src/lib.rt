// Which command the arguments name: by the first word, and by how many arguments there are, the program's own name among them.
// Commands that read and write alike are one family: the program has a function for each family.
#![tactic(auto)]

ghost use Rattle.std.specs.Prelude.{◌≡◌, map};
ghost use Rattle.commands.specs.Named.{row, found, of_book, of_words, of_files, command_of};

// A session with a book: its counts, the answer to the claim in the words, or the answers to the claims of standard input.
#[derive(Clone, Copy)]
pub enum Session {
    Check,
    AskWords,
    AskInput,
}

// A page of a book alone.
#[derive(Clone, Copy)]
pub enum BookPage {
    Why,
    Grid,
    Show,
}

// A page of a book and the words behind it.
#[derive(Clone, Copy)]
pub enum WordsPage {
    Why,
    Inside,
    Touching,
    Apart,
}

// A book is written anew by the words behind it.
#[derive(Clone, Copy)]
pub enum Change {
    Add,
    Withdraw,
}

// A book is written to another file.
#[derive(Clone, Copy)]
pub enum Export {
    Pack,
    Convert,
}

// What is no session.
#[derive(Clone, Copy)]
pub enum Task {
    Book(BookPage),
    Words(WordsPage),
    Replicates,
    Verify,
    Compare,
    Edit(Change),
    Write(Export),
    New,
    Help,
}

#[derive(Clone, Copy)]
pub enum Command {
    Session(Session),
    Task(Task),
}

// The command of a word's row. A `match` on the words was tried: it leaves a goal for each way past its arms, 32 for seven words, where a table needs one loop.
fn find(word: &[u8], rows: &[(&[u8], Command)]) -> Option<Command>
    ensures { result ≡ found (map (λ r. row r.0.now r.1) rows.now) word.now }
{
    for (name, command) in rows {
        if word == *name {
            return Some(*command);
        }
    }
    None
}

// The commands of one argument, a book.
fn of_one(word: &[u8]) -> Option<Command>
    ensures { result ≡ found of_book word.now }
{
    find(
        word,
        &[
            (b"check", Command::Session(Session::Check)),
            (b"why", Command::Task(Task::Book(BookPage::Why))),
            (b"grid", Command::Task(Task::Book(BookPage::Grid))),
            (b"show", Command::Task(Task::Book(BookPage::Show))),
            (b"ask", Command::Session(Session::AskInput)),
            (b"replicates", Command::Task(Task::Replicates)),
            (b"new", Command::Task(Task::New)),
        ],
    )
}

// The commands of a book and words.
fn of_words(word: &[u8]) -> Option<Command>
    ensures { result ≡ found of_words word.now }
{
    find(
        word,
        &[
            (b"ask", Command::Session(Session::AskWords)),
            (b"why", Command::Task(Task::Words(WordsPage::Why))),
            (b"inside", Command::Task(Task::Words(WordsPage::Inside))),
            (b"touching", Command::Task(Task::Words(WordsPage::Touching))),
            (b"apart", Command::Task(Task::Words(WordsPage::Apart))),
            (b"add", Command::Task(Task::Edit(Change::Add))),
            (b"withdraw", Command::Task(Task::Edit(Change::Withdraw))),
        ],
    )
}

// The commands of two files.
fn of_files(word: &[u8]) -> Option<Command>
    ensures { result ≡ found of_files word.now }
{
    find(
        word,
        &[
            (b"verify", Command::Task(Task::Verify)),
            (b"compare", Command::Task(Task::Compare)),
            (b"pack", Command::Task(Task::Write(Export::Pack))),
            (b"convert", Command::Task(Task::Write(Export::Convert))),
        ],
    )
}

#[tactic(auto, using(crate::proofs::Names::answered, crate::proofs::Names::few, crate::proofs::Names::three, crate::proofs::Names::four, crate::proofs::Names::more))]
pub fn command_of(word: &[u8], count: usize) -> Command
    ensures { result ≡ command_of word.now count }
{
    let command = match count {
        0..3 => None,
        3 => of_one(word),
        4 => of_files(word).or(of_words(word)),
        _ => of_words(word),
    };
    command.unwrap_or(Command::Task(Task::Help))
}
