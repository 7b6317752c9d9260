//! The subcommands of `letting` and their options, as `clap` is told them.

ghost use Rattle.std.specs.Prelude.{◌≡◌, [], IfOk, codes};
ghost use Rattle.clap.specs.Words.{app_of};
ghost use Rattle.dh_arguments.specs.Table as table;
ghost use Rattle.dh_arguments.specs.Table.{Adds, IsArgument, IsSubcommand};

use clap::{Arg, Command};
use std::alloc::{AllocError, Global};

// The texts, and the exit statuses behind them. A subcommand may tell 0 and 1, and 3 and 4, in its own words.
macro_rules! with_statuses {
    ($($text:literal),*) => {
        with_statuses!(
            $($text),*;
            "0  done\n  \
            1  some line, the run or the question was refused\n  ",
            "3  a fault, or a failing input or output\n  \
            4  a rent run stands open\n  "
        )
    };
    ($($text:literal),*; $done:literal, $failed:literal) => {
        concat!(
            $($text,)*
            "Exit status:\n  ",
            $done,
            "2  bad words\n  ",
            $failed,
            "5  the file was refused"
        )
    };
}

// The texts, and behind them the replies and the exit statuses.
macro_rules! with_replies {
    ($($text:literal),*) => {
        with_statuses!(
            $($text,)*
            "Replies:\n  \
            ok                          done\n  \
            already                     there with the same fields: nothing changed\n  \
            receipt N                   the receipt has the number N\n  \
            opened MONTH                the month's rent run is open\n  \
            part MONTH D of N           D of its N batches are done\n  \
            posted MONTH COUNT TOTAL    it is closed: so many charges, and their sum\n  \
            already ..                  told before, by this key: nothing changed\n  \
            refused R                   refused for the reason R of the manual: nothing changed\n  \
            bad field N                 field N is wrong, missing or one too many\n  \
            shown K                     the K lines of a report follow\n  \
            fault 21, fault 22          memory ran out, the store failed\n\n"
        )
    };
}

// The version of the program: that of the files that it makes, and which program for such files it is. With two texts it stands between them,
// and the exit statuses stand behind.
macro_rules! version {
    () => {
        "2.2"
    };
    ($before:literal, $behind:literal) => {
        with_statuses!($before, "2.2", $behind)
    };
}

const STATUSES: &str = version!("This is letting ", ", for files of version 2.\n\n");

const MAKING: &str = "Exit status:\n  \
    0  done\n  \
    2  bad words\n  \
    3  a fault, or a failing output";

const RECOVERY: &str = with_statuses!(
    ;
    "0  done\n  ",
    "3  a fault, or a failing output\n  "
);

const REPLIES: &str = with_replies!();

const LINES: &str = with_replies!(
    "Lines, as rent,P101,700.00 (the manual has the fields of each word):\n  \
    branch        opens a branch office\n  \
    fee           sets what a branch takes of the rents\n  \
    staff         takes on a member of staff\n  \
    owner         adds an owner\n  \
    property      takes on a property\n  \
    assign        gives a property to another member of staff, or to nobody\n  \
    rent          sets a property's rent\n  \
    client        adds a client\n  \
    register      registers a client at a branch\n  \
    viewing       notes a viewing\n  \
    comment       sets the comment of a viewing\n  \
    inspection    notes an inspection\n  \
    lease         signs a lease\n  \
    end           ends a lease early\n  \
    receipt       takes a receipt\n  \
    run           charges a month's rent\n  \
    open          only opens the month's rent run\n  \
    post          carries out batches of the open run\n  \
    show          asks a question\n\n"
);

const QUESTIONS: &str = with_statuses!(
    "Questions:\n  \
    branches               all branches\n  \
    vacant DAY             the properties that no lease covers that day\n  \
    matching CLIENT DAY    the vacant properties that the client would take\n  \
    statement LEASE        what a lease was charged and what was paid on it\n  \
    arrears BRANCH         the leases of a branch on which rent is owed\n  \
    run MONTH              the parts of a month's closed rent run\n  \
    owner OWNER MONTH      what a month charged for an owner, the fees, and what is left\n\n"
);

const ANSWERS: &str = with_statuses!(
    "Answers:\n  \
    200, ..  the status of an answered request; serving ends at the first 503\n  \
    lost     a connection without an answer\n\n";
    "0  done, though requests were refused or a run stands open\n  ",
    "3  a fault, an answer 503, no listener (`no listener`), or a failing output\n  "
);

// The option `--name VALUE`, which may be left out.
fn option<'a>(alloc: Global, name: &'a str, value: &'a str, help: &'a str) -> Arg<'a>
    ensures { IsArgument (table.option name.entry.now) result }
{
    Arg::new(alloc, name)
        .long(name)
        .value_name(value)
        .help(help)
}

// The option `--name VALUE`, which has to be given.
fn required<'a>(alloc: Global, name: &'a str, value: &'a str, help: &'a str) -> Arg<'a>
    ensures { IsArgument (table.required (table.option name.entry.now)) result }
{
    option(alloc, name, value, help).required(true)
}

// The option for the file of an agency that was made.
fn agency_file<'a>(alloc: Global) -> Arg<'a>
    ensures { IsArgument (table.required (table.option (codes "file"))) result }
{
    required(
        alloc,
        "file",
        "FILE",
        "The agency's file, as --file office.db",
    )
}

// A subcommand before it has its arguments.
fn subcommand<'a>(alloc: Global, name: &'a str, about: &'a str, help: &'a str) -> Command<'a>
    ensures { IsSubcommand (table.subcommand name.entry.now []) result }
{
    Command::new(alloc, name).about(about).after_help(help)
}

// One word or more that belong to no option.
fn free_words<'a>(alloc: Global) -> Arg<'a>
    ensures { IsArgument table.free_words result }
{
    Arg::new(alloc, "word")
        .value_name("WORD")
        .help("The question, as: arrears B001")
        .num_args(1..)
        .required(true)
}

// A subcommand with its arguments, in their order.
macro_rules! words {
    ($alloc:ident, $word:literal, $about:literal, $behind:ident; $($kind:ident $($name:literal $value:literal $help:literal)?);*) => {
        Ok(subcommand($alloc, $word, $about, $behind)$(.arg($kind($alloc$(, $name, $value, $help)?))?)*)
    };
}

fn init<'a>(alloc: Global) -> Result<Command<'a>, AllocError>
    ensures { IfOk result (IsSubcommand table.init) }
{
    words!(alloc, "init", "Makes the file of a new agency and prints `created M`, M being its first month", MAKING;
        required "file" "FILE" "The file to make, as --file office.db";
        required "first" "MONTH" "The month that the books begin with, as --first 2025-01")
}

fn batch<'a>(alloc: Global) -> Result<Command<'a>, AllocError>
    ensures { IfOk result (IsSubcommand table.batch) }
{
    words!(alloc, "batch", "Answers the lines of standard input and prints a reply line for each", LINES;
        option "file" "FILE" "The agency's file, as --file office.db; without it the agency is in memory";
        option "first" "MONTH" "The month that an agency in memory begins with, as --first 2025-01, which it is where not given")
}

fn run<'a>(alloc: Global) -> Result<Command<'a>, AllocError>
    ensures { IfOk result (IsSubcommand table.run) }
{
    words!(alloc, "run", "Charges a month's rent and prints the reply", REPLIES;
        agency_file;
        required "key" "KEY" "The key of the run, as --key R-2025-01; sent again, it charges nothing twice";
        required "month" "MONTH" "The month to charge, as --month 2025-01";
        option "batches" "N" "Only opens the run and carries out so many batches, as --batches 3")
}

fn recover<'a>(alloc: Global) -> Result<Command<'a>, AllocError>
    ensures { IfOk result (IsSubcommand table.recover) }
{
    words!(alloc, "recover", "Brings the open rent run to its end and prints `recovered`", RECOVERY;
        agency_file)
}

fn migrate<'a>(alloc: Global) -> Result<Command<'a>, AllocError>
    ensures { IfOk result (IsSubcommand table.migrate) }
{
    words!(alloc, "migrate", "Takes a file of the first version to the second and prints `migrated`; copy the file first, there is no way back", RECOVERY;
        agency_file)
}

fn report<'a>(alloc: Global) -> Result<Command<'a>, AllocError>
    ensures { IfOk result (IsSubcommand table.report) }
{
    words!(alloc, "report", "Answers a question: prints the report, or the refusal", QUESTIONS;
        agency_file;
        free_words)
}

fn serve<'a>(alloc: Global) -> Result<Command<'a>, AllocError>
    ensures { IfOk result (IsSubcommand table.serve) }
{
    words!(alloc, "serve", "Answers HTTP requests on this machine, and prints the status of each answer", ANSWERS;
        agency_file;
        required "port" "PORT" "The port to listen at on 127.0.0.1, 0 to 65535, as --port 8080; with 0 the system picks one, and `port P` is printed first";
        required "count" "N" "How many connections to serve, one after the other, as --count 1000 (1 to 1,000,000)")
}

// `letting` before it has its subcommands.
fn top<'a>(alloc: Global) -> Command<'a>
    ensures { app_of result ≡ record { top = table.top; subs = [] } }
{
    Command::new(alloc, "letting")
        .about("The daily system of a property letting agency")
        .version(version!())
        .after_help(STATUSES)
        .no_binary_name(true)
        .disable_help_subcommand(true)
        .arg_required_else_help(true)
        .subcommand_required(true)
}

// The command with the program's name in usages, which is none of its words.
fn with_name<'a>(command: Command<'a>) -> Result<Command<'a>, AllocError>
    ensures { IfOk result (λ named. app_of named ≡ app_of command.entry) }
{
    command.bin_name("letting")
}

// The command with one more subcommand.
fn with<'a>(
    command: Command<'a>,
    subcommand: Result<Command<'a>, AllocError>,
) -> Result<Command<'a>, AllocError>
    ensures { IfOk result (Adds command.entry subcommand.entry) }
{
    command.subcommand(subcommand?)
}

/// All that the words behind the program's name may be.
pub(crate) fn letting<'a>(alloc: Global) -> Result<Command<'a>, AllocError>
    ensures { IfOk result (λ command. app_of command ≡ table.letting) }
{
    let bare = with_name(top(alloc))?;
    let letting = with(bare, init(alloc))?;
    let letting = with(letting, batch(alloc))?;
    let letting = with(letting, run(alloc))?;
    let letting = with(letting, recover(alloc))?;
    let letting = with(letting, migrate(alloc))?;
    let letting = with(letting, report(alloc))?;
    with(letting, serve(alloc))
}
