// The commands of the program, as `clap` builds them.
ghost use Rattle.std.specs.Prelude.{◌≡◌, IfOk, IfErr, [], map, false};
ghost use Rattle.clap.specs.Words.{app_of, rule_of, HasMatchesOf, fault_of};
ghost use Rattle.clap.specs.declared.builder.command.Command.TheViews.{out-Command};
ghost use Rattle.centre_words.specs.Rows.{item_of, row_of};
ghost use Rattle.centre_words.specs.Words.{texts};
ghost use Rattle.centre_words.specs.Commands.{the_app, app_of_row, bare, item_rule, place_rule, option_rule, top_app, with_rules};
ghost use Rattle.centre_words.specs.declared.asked.WordsFault.TheVariants as faults;

use crate::asked::WordsFault;
use crate::table::{Item, Row, rows};
use clap::error::ErrorKind;
use clap::{Arg, ArgAction, ArgMatches, Command};
use std::alloc::{AllocError, Global};

fn item_arg<'a>(alloc: Global, item: Item) -> Arg<'a>
    ensures rule { rule_of result ≡ item_rule (item_of item) }
    ensures local { result.global ≡ false }
{
    match item {
        Item::File(id) => Arg::new(alloc, id).action(ArgAction::Set),
        Item::Count(number) => Arg::new(alloc, number.name).action(ArgAction::Set),
        Item::Choice(number) => Arg::new(alloc, number.name)
            .long(number.name)
            .action(ArgAction::Set),
    }
}

fn bare_command<'a>(alloc: Global, name: &'a str) -> Command<'a>
    ensures app { app_of result ≡ bare name.entry.now }
    ensures local { (out-Command result).has_globals ≡ false }
{
    Command::new(alloc, name)
        .disable_help_flag(true)
        .disable_version_flag(true)
}

fn top_command<'a>(alloc: Global) -> Command<'a>
    ensures { app_of result ≡ top_app }
{
    Command::new(alloc, "flipcentre")
        .disable_help_flag(true)
        .disable_version_flag(true)
        .disable_help_subcommand(true)
        .no_binary_name(true)
        .subcommand_required(true)
}

fn row_command<'a>(alloc: Global, row: Row) -> Result<Command<'a>, AllocError>
    ensures app { IfOk result (λ c. app_of c ≡ app_of_row (row_of row)) }
    ensures local { IfOk result (λ c. (out-Command c).has_globals ≡ false) }
{
    let mut command = bare_command(alloc, row.name);
    for item in row.items {
        command = command.arg(item_arg(alloc, *item))?;
    }
    Ok(command)
}

fn command<'a>(alloc: Global) -> Result<Command<'a>, AllocError>
    ensures { IfOk result (λ c. app_of c ≡ the_app) }
{
    let mut command = top_command(alloc);
    for row in rows() {
        let below = row_command(alloc, *row)?;
        command = command.subcommand(below)?;
    }
    Ok(command)
}

/// What `clap` makes of the words.
pub fn parse<'a>(alloc: Global, words: &'a [String]) -> Result<ArgMatches<'a>, WordsFault>
    ensures matches { IfOk result (HasMatchesOf the_app (texts words.entry.now)) }
    ensures passes { IfOk result (λ _. fault_of the_app (texts words.entry.now) ≡ []) }
    ensures refuses { IfErr result (λ e. fault_of the_app (texts words.entry.now) ≡ [] → e ≡ faults.OutOfMemory) }
{
    match command(alloc)?.try_get_matches_from(words) {
        Ok(matches) => Ok(matches),
        Err(error) => match error.kind() {
            ErrorKind::OutOfMemory => Err(WordsFault::OutOfMemory),
            _ => Err(WordsFault::Words),
        },
    }
}
