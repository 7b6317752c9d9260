//! The options behind a subcommand.

ghost use Rattle.std.specs.Prelude.{◌≡◌, ℕ, List, Option, None, Some, MatchResult};
ghost use Rattle.clap.specs.Words.{found_of, rows_of};
ghost use Rattle.dh_values.specs.Counts.{batch_count_of};
ghost use Rattle.dh_days.specs.Months.{month_of};
ghost use Rattle.dh_arguments.specs.Options.{HasValues, IsReadBy, first_bad, key_of, name_of, port_of};

use crate::ports::port_from_text;
use clap::ArgMatches;
use dh_types::{BadText, BatchCount, EntryMonth, Key};

/// An option whose text has to be a value.
#[derive(Clone, Copy)]
pub(crate) enum Judged {
    First,
    Key,
    Month,
    Batches,
    Port,
    Count,
}

impl Judged {
    /// The option's long name.
    pub(crate) fn name(self) -> &'static str
        ensures { result.now ≡ name_of self }
    {
        match self {
            Judged::First => "first",
            Judged::Key => "key",
            Judged::Month => "month",
            Judged::Batches => "batches",
            Judged::Port => "port",
            Judged::Count => "count",
        }
    }
}

/// The values of the options that are given. A subcommand has some of them.
#[derive(Clone, Copy)]
pub(crate) struct Options<'a> {
    pub(crate) file: Option<&'a str>,
    pub(crate) first: Option<EntryMonth>,
    pub(crate) key: Option<Key>,
    pub(crate) month: Option<EntryMonth>,
    pub(crate) batches: Option<BatchCount>,
    pub(crate) port: Option<u16>,
    pub(crate) count: Option<BatchCount>,
}

/// A value that an option may have.
pub(crate) trait OptionValue: Copy {
    /// The value of a text, if it has one.
    ghost value_of: { List ℕ → Option Self };

    /// The value that the text is. `BadText` where it is none.
    fn of_text(text: &str) -> Result<Self, BadText>
        ensures { MatchResult result (λ it. value_of text.now ≡ Some it) (λ _. value_of text.now ≡ None) };
}

impl OptionValue for EntryMonth {
    ghost value_of = { month_of };

    fn of_text(text: &str) -> Result<EntryMonth, BadText> {
        EntryMonth::read(text)
    }
}

impl OptionValue for Key {
    ghost value_of = { key_of };

    fn of_text(text: &str) -> Result<Key, BadText> {
        Key::read(text)
    }
}

impl OptionValue for BatchCount {
    ghost value_of = { batch_count_of };

    fn of_text(text: &str) -> Result<BatchCount, BadText> {
        BatchCount::read(text)
    }
}

/// A port.
impl OptionValue for u16 {
    ghost value_of = { port_of };

    fn of_text(text: &str) -> Result<u16, BadText> {
        port_from_text(text)
    }
}

// The value that the option gives, if it is given. The option itself where its text is none.
fn read_value<T: OptionValue>(values: &ArgMatches, option: Judged) -> Result<Option<T>, Judged>
    ensures { IsReadBy T.value_of option (rows_of (found_of values.now)) result }
{
    let Some(text) = values.get_str(option.name()) else {
        return Ok(None);
    };
    match T::of_text(text) {
        Ok(value) => Ok(Some(value)),
        Err(_) => Err(option),
    }
}

/// The values of the options. The first option, in the order of the fields, whose text is none.
pub(crate) fn read_options<'a>(values: &ArgMatches<'a>) -> Result<Options<'a>, Judged>
    ensures { MatchResult result (λ options. (first_bad (rows_of (found_of values.now)) ≡ None) × HasValues (rows_of (found_of values.now)) options)
        (λ bad. first_bad (rows_of (found_of values.now)) ≡ Some (name_of bad)) }
{
    Ok(Options {
        file: values.get_str("file"),
        first: read_value(values, Judged::First)?,
        key: read_value(values, Judged::Key)?,
        month: read_value(values, Judged::Month)?,
        batches: read_value(values, Judged::Batches)?,
        port: read_value(values, Judged::Port)?,
        count: read_value(values, Judged::Count)?,
    })
}
