//! The command line, as `clap` reads it.
ghost use Rattle.std.specs.Prelude.{◌≡◌, false, IfOk};
ghost use Rattle.clap.specs.Words.{app_of, rule_of};
ghost use Rattle.clap.specs.declared.builder.command.Command.TheViews.{out-Command};
ghost use Rattle.fab_program_options.specs.CommandLine.{desk_app, option_rule, option_rules, program_app, rule_by, subcommand_app};
ghost use Rattle.fab_program_words.specs.Options.{option_name};
ghost use Rattle.fab_program_words.specs.declared.options.OptionShape.TheVariants.{Flag, Place, Value};
ghost use Rattle.fab_program_options.specs.Building.{Gains};

use crate::subcommands::{SUBCOMMANDS, Subcommand};
use clap::{Arg, ArgAction, Command};
use fab_program_words::{OptionKind, OptionShape};
use std::alloc::{AllocError, Global};

/// An option, as an argument of its shape.
fn argument_of<'a>(alloc: Global, option: OptionKind, is_required: bool) -> Arg<'a>
    ensures rule { rule_of result ≡ option_rule is_required option }
    ensures local { result.global ≡ false }
{
    match option.shape() {
        OptionShape::Value => valued(alloc, option, is_required),
        OptionShape::Place => placed(alloc, option, is_required),
        OptionShape::Flag => flagged(alloc, option, is_required),
    }
}

/// An option, as an argument that is a value alone.
fn placed<'a>(alloc: Global, option: OptionKind, is_required: bool) -> Arg<'a>
    ensures rule { rule_of result ≡ rule_by Place is_required (option_name option) }
    ensures local { result.global ≡ false }
{
    Arg::new(alloc, option.name())
        .action(ArgAction::Set)
        .required(is_required)
        .value_name(option.value_name())
        .help(option.help())
}

/// An option, as an argument without a value.
fn flagged<'a>(alloc: Global, option: OptionKind, is_required: bool) -> Arg<'a>
    ensures rule { rule_of result ≡ rule_by Flag is_required (option_name option) }
    ensures local { result.global ≡ false }
{
    Arg::new(alloc, option.name())
        .long(option.name())
        .action(ArgAction::SetTrue)
        .required(is_required)
        .help(option.help())
}

/// An option, as an argument with a value.
fn valued<'a>(alloc: Global, option: OptionKind, is_required: bool) -> Arg<'a>
    ensures rule { rule_of result ≡ rule_by Value is_required (option_name option) }
    ensures local { result.global ≡ false }
{
    Arg::new(alloc, option.name())
        .long(option.name())
        .action(ArgAction::Set)
        .required(is_required)
        .value_name(option.value_name())
        .help(option.help())
}

/// A command with some options more.
fn with_options<'a>(
    alloc: Global,
    command: Command<'a>,
    options: &[OptionKind],
    is_required: bool,
) -> Result<Command<'a>, AllocError>
    ensures { IfOk result (Gains command.entry (option_rules is_required options.now)) }
{
    let mut command = command;
    for option in options {
        command = command.arg(argument_of(alloc, *option, is_required))?;
    }
    Ok(command)
}

/// A subcommand with its options.
fn command_of<'a>(alloc: Global, subcommand: Subcommand) -> Result<Command<'a>, AllocError>
    ensures app { IfOk result (λ command. app_of command ≡ subcommand_app subcommand) }
    ensures local { IfOk result (λ command. (out-Command command).has_globals ≡ false) }
{
    let command = Command::new(alloc, subcommand.name())
        .about(subcommand.about())
        .after_help(subcommand.example());
    let command = with_options(alloc, command, subcommand.access(), true)?;
    let command = with_options(alloc, command, subcommand.required(), true)?;
    with_options(alloc, command, subcommand.optional(), false)
}

/// The program without its subcommands.
#[tactic(auto, unfolding(crate::specs::CommandLine::program_app))]
fn program<'a>(alloc: Global) -> Result<Command<'a>, AllocError>
    ensures { IfOk result (λ command. app_of command ≡ program_app) }
{
    let command = Command::new(alloc, "sandesk")
        .about("A change desk for SAN zoning and volume mapping")
        .after_help(
            "Example: sandesk once < request.http\nsandesk SUBCOMMAND --help has the options of a subcommand.",
        )
        .subcommand_required(true);
    command.bin_name("sandesk")
}

/// The program and its subcommands.
pub fn command_line<'a>(alloc: Global) -> Result<Command<'a>, AllocError>
    ensures { IfOk result (λ command. app_of command ≡ desk_app) }
{
    let mut command = program(alloc)?;
    for subcommand in &SUBCOMMANDS {
        let added = command_of(alloc, *subcommand)?;
        command = command.subcommand(added)?;
    }
    Ok(command)
}
