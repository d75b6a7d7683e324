//! The order that words give.

ghost use Rattle.std.specs.Prelude.{◌≡◌, ◌≢◌, ◌∷◌, IfOk, map, string_bytes, option_map, alloc_error};
ghost use Rattle.clap.specs.declared.error.kind.ErrorKind.TheVariants.{OutOfMemory};
ghost use Rattle.clap.specs.Matches.{found_of};
ghost use Rattle.clap.specs.Walk.{rows_of};
ghost use Rattle.dj_words.specs.Grammar.{IsGrammatical, Line, TookWords, line_words};
ghost use Rattle.dj_words.specs.Orders.{Answers, asks_for_files, filed, made, classes, order_in, order_of, raw, world};
ghost use Rattle.dj_words.specs.declared.order.UsageKind.TheVariants.{Words};
ghost use Rattle.dj_words.specs.declared.order.WordsFault.TheVariants.{Memory, Usage};

use crate::command::command;
use crate::number::number_of;
use clap::ArgMatches;
use clap::error::ErrorKind;
use std::alloc::{AllocError, AllocFailed, Global};
use thiserror::Error;

/// What is to be done.
#[derive(Drop)]
pub enum Order {
    /// Print these class files, in order.
    Files {
        named: Vec<String>,
        /// The file that lists the library files.
        list: Option<String>,
        /// Bodies stay as they are rebuilt.
        raw: bool,
    },
    /// Make so many class files, and print these.
    Make(u32),
}

/// What is wrong with the words.
#[derive(Clone, Copy, Debug, PartialEq, Eq)]
pub enum UsageKind {
    /// The command doesn't take them.
    Words,
    /// They name no file.
    NoFile,
    /// They give two orders.
    TwoOrders,
    /// The number of classes isn't one.
    Number,
}

/// Why the words give no order.
#[derive(Debug, Drop, Error)]
pub enum WordsFault {
    #[error("usage: {0:?}")]
    Usage(UsageKind),
    #[error(transparent)]
    Memory(AllocError),
}

impl From<AllocError> for WordsFault {
    ghost use Rattle.std.specs.Prelude.{◌≡◌};
    ghost use Rattle.dj_words.specs.declared.order.WordsFault.TheVariants.{Memory};

    ghost from_gives = { λ error fault. fault ≡ Memory error };

    fn from(error: AllocError) -> WordsFault {
        WordsFault::Memory(error)
    }
}

impl<T: Drop> From<AllocFailed<T>> for WordsFault {
    ghost use Rattle.std.specs.Prelude.{◌≡◌, alloc_error};
    ghost use Rattle.dj_words.specs.declared.order.WordsFault.TheVariants.{Memory};

    ghost from_gives = { λ _ fault. fault ≡ Memory alloc_error };

    fn from(_: AllocFailed<T>) -> WordsFault {
        WordsFault::Memory(AllocError)
    }
}

/// The order that the words give, the first of which is the program's name and isn't looked at.
pub fn read_words(alloc: Global, words: &[String]) -> Result<Order, WordsFault>
    // What is answered is the order of the words, or what is wrong with them.
    ensures order { Answers result (order_of (map string_bytes words.now)) }
    // Words that keep the grammar are taken.
    ensures taken { (program : _) (line : Line) → IsGrammatical line → map string_bytes words.now ≡ program ∷ line_words line → TookWords result }
{
    match command(alloc)?.try_get_matches_from(words) {
        Ok(matches) => order_in(alloc, &matches),
        Err(error) => Err(refused(error.kind())),
    }
}

/// Why words that `clap` refuses with such an error give no order.
fn refused(kind: ErrorKind) -> WordsFault
    ensures memory { kind ≡ OutOfMemory → result ≡ Memory alloc_error }
    ensures words { kind ≢ OutOfMemory → result ≡ Usage Words }
{
    if kind == ErrorKind::OutOfMemory {
        WordsFault::Memory(AllocError)
    } else {
        WordsFault::Usage(UsageKind::Words)
    }
}

/// The order of words that the command takes.
#[tactic(auto, using(crate::proofs::Reading::by_rows))]
fn order_in(alloc: Global, matches: &ArgMatches<'_>) -> Result<Order, WordsFault>
    ensures order { Answers result (order_in (rows_of (found_of matches.now))) }
{
    match matches.get_str("make") {
        None => filed(alloc, matches),
        Some(text) => made(matches, text),
    }
}

/// The order to make so many classes.
#[tactic(auto, using(crate::proofs::Reading::by_rows))]
fn made(matches: &ArgMatches<'_>, text: &str) -> Result<Order, WordsFault>
    ensures order { Answers result (made (rows_of (found_of matches.now)) text.now) }
{
    if asks_for_files(matches) {
        return Err(WordsFault::Usage(UsageKind::TwoOrders));
    }
    match number_of(text) {
        Some(number) => Ok(Order::Make(number)),
        None => Err(WordsFault::Usage(UsageKind::Number)),
    }
}

/// The order to print files.
#[tactic(auto, using(crate::proofs::Reading::by_rows))]
fn filed(alloc: Global, matches: &ArgMatches<'_>) -> Result<Order, WordsFault>
    ensures order { Answers result (filed (rows_of (found_of matches.now))) }
{
    match classes(matches) {
        [] => Err(WordsFault::Usage(UsageKind::NoFile)),
        classes => {
            let named = owned(alloc, classes)?;
            let list = world(alloc, matches)?;
            let raw = is_raw(matches);
            Ok(Order::Files { named, list, raw })
        }
    }
}

/// Whether something asks for files.
#[tactic(auto, using(crate::proofs::Reading::by_rows))]
fn asks_for_files(matches: &ArgMatches<'_>) -> bool
    ensures asks { result ≡ asks_for_files (rows_of (found_of matches.now)) }
{
    match classes(matches) {
        [] => match matches.get_str("world") {
            Some(_) => true,
            None => is_raw(matches),
        },
        _ => true,
    }
}

/// The CLASS words.
#[tactic(auto, using(crate::proofs::Reading::by_rows))]
fn classes<'a>(matches: &'a ArgMatches<'_>) -> &'a [&'a str]
    ensures classes { map (λ word. word.now) result.now ≡ classes (rows_of (found_of matches.now)) }
{
    matches.get_strs("CLASS").unwrap_or(&[])
}

/// Whether bodies stay as they are rebuilt.
#[tactic(auto, using(crate::proofs::Reading::by_rows))]
fn is_raw(matches: &ArgMatches<'_>) -> bool
    ensures raw { result ≡ raw (rows_of (found_of matches.now)) }
{
    match matches.get_str("raw") {
        Some(text) => text == "true",
        None => false,
    }
}

/// The value of `--world`, copied.
#[tactic(auto, using(crate::proofs::Reading::by_rows))]
fn world(alloc: Global, matches: &ArgMatches<'_>) -> Result<Option<String>, AllocError>
    ensures world { IfOk result (λ list. option_map string_bytes list ≡ world (rows_of (found_of matches.now))) }
{
    match matches.get_str("world") {
        Some(text) => Ok(Some(String::from_str(alloc, text)?)),
        None => Ok(None),
    }
}

/// Words, copied.
fn owned(alloc: Global, words: &[&str]) -> Result<Vec<String>, AllocError>
    ensures owned { IfOk result (λ owned. map string_bytes owned.items ≡ map (λ word. word.now) words.now) }
{
    let mut owned = Vec::new(alloc);
    for word in words {
        owned.push(String::from_str(alloc, word)?)?;
    }
    Ok(owned)
}
