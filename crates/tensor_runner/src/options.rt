//! Reads the options of tensor_lines and tensor_frames. A new option touches specs/Options.antt, the
//! usage line in `program.rt`, docs/SERVE.md and the man pages.

ghost use Rattle.std.specs.Prelude.{◌≡◌, ◌<◌, ◌≤◌, ◌∷◌, map, length, drop, Ok, Err, IfOk, IfErr};
ghost use Rattle.std.specs.Prelude.{option_copied, string_bytes};
ghost use Rattle.tensor_runner.specs.Options.{command_in, option_in, options_in, takes_number};
ghost use Rattle.tensor_runner.specs.Options.{number_in, without_value, setting_of};
ghost use Rattle.tensor_runner.specs.Options.{with_setting, serving_with};

use crate::limits::Limits;
use thiserror::Error;

/// The version of the programs.
pub const VERSION: &str = "4.1.0";

/// What the options ask of a program.
#[derive(Clone, Copy, Debug, Drop, Eq, PartialEq)]
pub enum Command {
    /// Answer requests by these options.
    Serve(ServeOptions),
    /// Print the usage line.
    Help,
    /// Print the version.
    Version,
}

/// The options by which requests are answered.
#[derive(Clone, Copy, Debug, Drop, Eq, PartialEq)]
pub struct ServeOptions {
    /// The most that is computed for one request.
    pub limits: Limits,
    /// Whether each request is noted on standard error.
    pub log: bool,
}

/// What is wrong with an option.
#[derive(Clone, Copy, Debug, Drop, Eq, PartialEq, Error)]
pub enum OptionFault {
    /// The program has no option of this name.
    #[error("no such option")]
    NoSuchOption,
    /// The option takes a number, and has no value.
    #[error("a number is missing")]
    NumberMissing,
    /// The option takes a number, and its value isn't a whole number below 2^64.
    #[error("the value is not a whole number below 2^64")]
    NotANumber,
    /// The option takes no value, and has one.
    #[error("takes no value")]
    TakesNoValue,
}

/// An option that is refused.
#[derive(Clone, Copy, Debug, Drop, Error)]
#[error("{name}: {fault}")]
pub struct RefusedOption<'a> {
    /// The name of the option, as it was written.
    pub name: &'a str,
    /// What is wrong with the option.
    pub fault: OptionFault,
}

/// What one option asks for.
#[derive(Clone, Copy, Drop)]
enum Setting {
    /// `--most-workers`, with its value.
    MostWorkers(u64),
    /// `--most-steps`, with its value.
    MostSteps(u64),
    /// `--most-bytes`, with its value.
    MostBytes(u64),
    /// `--most-seconds`, with its value.
    MostSeconds(u64),
    /// `--log`.
    Log,
    /// `--help` or `-h`.
    Help,
    /// `--version`.
    Version,
}

/// The first option of some words.
#[derive(Clone, Copy, Drop)]
struct FirstOption<'a> {
    /// The name of the option.
    name: &'a str,
    /// The value of the option, if it has one.
    value: Option<&'a str>,
    /// How many words the option takes up, 1 or 2.
    word_count: usize,
}

/// Reads the words after a program's name. Its options are applied in order: the last limit of a
/// kind counts, and the first of help and version wins over everything else.
///
/// # Errors
///
/// The first option that is refused, even after help or version.
pub fn command_of<'a>(words: &'a [String]) -> Result<Command, RefusedOption<'a>>
    ensures command { IfOk result
        (λ command. command_in (map string_bytes words.now) ≡ Ok command) }
    ensures refused { IfErr result
        (λ refused. command_in (map string_bytes words.now)
        ≡ Err (record { name = refused.name.now; fault = refused.fault })) }
{
    let mut command = Command::Serve(ServeOptions {
        limits: Limits::none(),
        log: false,
    });
    let mut at = 0;
    while at < words.len() {
        let option = first_option(&words[at..]);
        match setting_of(option.name, option.value) {
            Ok(setting) => command = with_setting(command, setting),
            Err(fault) => {
                return Err(RefusedOption {
                    name: option.name,
                    fault,
                });
            }
        }
        at += option.word_count;
    }
    Ok(command)
}

/// Reads the first option of some words. If it takes a number and stands without `=`, its value is
/// the next word.
fn first_option<'a>(words: &'a [String]) -> FirstOption<'a>
    requires { 0 < length words.now }
    ensures first { options_in (map string_bytes words.now)
        ≡ record { name = result.name.now; value = option_copied result.value }
        ∷ options_in (map string_bytes (drop result.word_count words.now)) }
    ensures some { 0 < result.word_count }
    ensures within { result.word_count ≤ length words.now }
{
    match *words {
        [ref name, ref value, ..] if takes_number(name) => FirstOption {
            name,
            value: Some(value),
            word_count: 2,
        },
        _ => {
            let (name, value) = parted(&words[0]);
            FirstOption {
                name,
                value,
                word_count: 1,
            }
        }
    }
}

/// Returns whether the option of this name takes a number.
fn takes_number(name: &str) -> bool
    ensures { result ≡ takes_number name.now }
{
    name == "--most-workers"
        || name == "--most-steps"
        || name == "--most-bytes"
        || name == "--most-seconds"
}

/// Splits a word `name` or `name=value` into the name and the value of its option.
fn parted(word: &str) -> (&str, Option<&str>)
    ensures { option_in word.now
        ≡ record { name = result.0.now; value = option_copied result.1 } }
{
    match word.split_once('=') {
        Some((name, value)) => (name, Some(value)),
        None => (word, None),
    }
}

/// Returns what the option of this name and this value asks for.
fn setting_of(name: &str, value: Option<&str>) -> Result<Setting, OptionFault>
    ensures { result ≡ setting_of name.now (option_copied value.entry) }
{
    match name {
        "--most-workers" => Ok(Setting::MostWorkers(number_in(value)?)),
        "--most-steps" => Ok(Setting::MostSteps(number_in(value)?)),
        "--most-bytes" => Ok(Setting::MostBytes(number_in(value)?)),
        "--most-seconds" => Ok(Setting::MostSeconds(number_in(value)?)),
        "--log" => without_value(Setting::Log, value),
        "--help" | "-h" => without_value(Setting::Help, value),
        "--version" => without_value(Setting::Version, value),
        _ => Err(OptionFault::NoSuchOption),
    }
}

/// Reads the number that is an option's value.
fn number_in(value: Option<&str>) -> Result<u64, OptionFault>
    ensures { result ≡ number_in (option_copied value.entry) }
{
    let Some(word) = value else {
        return Err(OptionFault::NumberMissing);
    };
    match word.parse::<u64>() {
        Ok(number) => Ok(number),
        Err(_) => Err(OptionFault::NotANumber),
    }
}

/// Returns the setting of an option that takes no value, or the fault if it has one.
fn without_value(setting: Setting, value: Option<&str>) -> Result<Setting, OptionFault>
    ensures { result ≡ without_value setting (option_copied value.entry) }
{
    match value {
        Some(_) => Err(OptionFault::TakesNoValue),
        None => Ok(setting),
    }
}

/// Returns a command after a setting was applied to it. Help and version stay as they are.
fn with_setting(command: Command, setting: Setting) -> Command
    ensures { result ≡ with_setting command setting }
{
    match command {
        Command::Serve(options) => serving_with(options, setting),
        Command::Help => Command::Help,
        Command::Version => Command::Version,
    }
}

/// Returns the command after a setting was applied to the command to serve by these options.
fn serving_with(options: ServeOptions, setting: Setting) -> Command
    ensures { result ≡ serving_with options setting }
{
    let limits = options.limits;
    match setting {
        Setting::MostWorkers(most) => Command::Serve(ServeOptions {
            limits: Limits {
                workers: Some(most),
                ..limits
            },
            ..options
        }),
        Setting::MostSteps(most) => Command::Serve(ServeOptions {
            limits: Limits {
                steps: Some(most),
                ..limits
            },
            ..options
        }),
        Setting::MostBytes(most) => Command::Serve(ServeOptions {
            limits: Limits {
                bytes: Some(most),
                ..limits
            },
            ..options
        }),
        Setting::MostSeconds(most) => Command::Serve(ServeOptions {
            limits: Limits {
                seconds: Some(most),
                ..limits
            },
            ..options
        }),
        Setting::Log => Command::Serve(ServeOptions {
            log: true,
            ..options
        }),
        Setting::Help => Command::Help,
        Setting::Version => Command::Version,
    }
}
