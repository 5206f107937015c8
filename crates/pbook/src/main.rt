// The laboratory's program: a command, a book, and words in the arguments; a page out. The texts and pages stand here, and each family of commands is lent what it uses.
#![tactic(auto)]

mod arguments;
mod buffers;
mod changes;
mod desk;
mod reading;

use buffers::{LONG_PAGE_ROOM, PAGE_ROOM, TEXT_ROOM};
use commands::{Command, Session, Task};
use files::Told;
use std::env::Env;

// The list of commands.
fn help(rt: &HostRuntime) {
    let text = b"\
pbook check BOOK
pbook ask BOOK [KIND a b [FACTS]]
pbook why BOOK [KIND a b [FACTS]]
pbook verify BOOK CHAIN
pbook inside BOOK g
pbook touching BOOK g
pbook apart BOOK g
pbook grid BOOK
pbook replicates BOOK
pbook compare BOOK OTHER
pbook show BOOK
pbook new BOOK
pbook pack BOOK OUT
pbook convert OLD OUT
pbook add BOOK KIND a b [ORIGIN]
pbook add BOOK void a [ORIGIN]
pbook withdraw BOOK n
pbook help
";
    files::write_page(rt, text, text.len());
}

// The longest word that names a command is shorter.
const WORD_ROOM: usize = 16;

// The command that the arguments name. A word that is longer than the room names none, and neither do no bytes.
fn named(rt: &HostRuntime) -> Command {
    let mut word = [0u8; WORD_ROOM];
    let n = rt.arg(1, &mut word).unwrap_or(0);
    commands::command_of(&word[..n], arguments::count(rt))
}

// A session is not called from `run`, whose frame has the matrices of the other pages.
fn session(
    rt: &HostRuntime,
    which: Session,
    source: &mut [u8],
    other: &mut [u8],
    page: &mut [u8],
) -> Result<(), Told> {
    match which {
        Session::Check => reading::check(rt, source, page),
        Session::AskWords => reading::ask_words(rt, source, page),
        Session::AskInput => reading::ask_input(rt, source, other, page),
    }
}

// `long` has room for the longest page, and for the longest chain that `verify` reads; `short` for the page of a command that reads more than that.
fn run(
    rt: &HostRuntime,
    task: Task,
    source: &mut [u8],
    other: &mut [u8],
    long: &mut [u8],
    short: &mut [u8],
) -> Result<(), Told> {
    match task {
        Task::Book(which) => reading::book(rt, which, source, long),
        Task::Words(which) => reading::words(rt, which, source, long),
        Task::Replicates => reading::replicates(rt, source, other, long),
        Task::Verify => reading::verify(rt, source, long, short),
        Task::Compare => reading::compare(rt, source, other, long, short),
        Task::Edit(which) => changes::change(rt, which, source, short),
        Task::Write(which) => changes::export(rt, which, source, short),
        Task::New => changes::new(rt, short),
        Task::Help => {
            help(rt);
            Ok(())
        }
    }
}

// What failed was told, and the exit status says nothing of it.
fn main(rt: HostRuntime) {
    let mut source = buffers::zeros::<TEXT_ROOM>();
    let mut other = buffers::zeros::<TEXT_ROOM>();
    let mut long = buffers::zeros::<LONG_PAGE_ROOM>();
    let mut short = buffers::zeros::<PAGE_ROOM>();
    let _ = match named(&rt) {
        Command::Session(which) => session(&rt, which, &mut source, &mut other, &mut long),
        Command::Task(task) => run(&rt, task, &mut source, &mut other, &mut long, &mut short),
    };
}
