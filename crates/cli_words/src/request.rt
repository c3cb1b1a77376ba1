//! The request of the words.
ghost use Rattle.std.specs.Prelude.{◌≡◌, ◌≤◌, ◌<◌, List, Some, length, map, string_bytes, IfOk, IfSome};
ghost use Rattle.std.specs.Option.{option_map};
ghost use Rattle.cli_words_model.specs.Words.{Text, Given};
ghost use Rattle.cli_words_model.specs.Request.{request_of, asked_by, path_of, file_of, own_file_of, named_of, micros_of, budget_of};
ghost use Rattle.cli_words_model.specs.Request.{bare_of, check_of, module_of, run_of, serve_of, replay_of, twin_of, make_of, seed_of, decode_of};
ghost use Rattle.cli_words_model.specs.Request.{bus_of, uart_of, spi_of, i2c_of, bit_of, mode_of, is_absent, lacks_uart, lacks_spi, lacks_i2c};
ghost use Rattle.cli_words.specs.Commands.{AreOf};
ghost use Rattle.cli_words.specs.Asked.{asked_of, bus_by, named_by, IsNamedBus, IsRunTime};
ghost use Rattle.cli_words.specs.Table.{asked_with, request_of_texts, syntax_by, syntax_of};

use crate::commands::{read_texts, text};
use crate::number::read_number;
use clap::ArgMatches;
use std::alloc::{AllocError, Global};

/// The files of a run that are named: its script, and those for its wave and its report.
#[derive(Clone, Copy)]
pub struct NamedFiles<'a> {
    pub script: Option<&'a str>,
    pub wave: Option<&'a str>,
    pub report: Option<&'a str>,
}

/// The lines of a serial bus, by the names of a wave's variables.
#[derive(Clone, Copy)]
pub enum NamedBus<'a> {
    /// A line, and the cycles of a bit, 2 to 1,000,000.
    Uart(&'a str, u32),
    /// The clock, the data and the mode, 0 to 3.
    Spi(&'a str, &'a str, u8),
    /// The clock and the data.
    I2c(&'a str, &'a str),
}

/// What the words ask for; microseconds are 1 to 10,000,000, and so are units of fuel.
#[derive(Clone, Copy)]
pub enum Request<'a> {
    /// The wave of one Uno without wires that runs a HEX file, for so many microseconds.
    Bare(&'a str, u32),
    /// Whether the project of a folder is accepted.
    Check(&'a str),
    /// Whether the module of a file is accepted.
    Module(&'a str),
    /// A run of the project of a folder for so many microseconds, in which each call of a chip may
    /// spend so many units of fuel, with the files that are named.
    Run(&'a str, u32, u32, NamedFiles<'a>),
    /// A live board of the project of a folder, in which each call of a chip may spend so many units of
    /// fuel, with the script and the file for its wave that are named.
    Serve(&'a str, u32, Option<&'a str>, Option<&'a str>),
    /// A run of the project of a folder with a player of what a wave says in place of each chip, for
    /// so many microseconds, with the files that are named.
    Replay(&'a str, &'a str, u32, NamedFiles<'a>),
    /// Whether the chips of the projects of two folders, which share all else, drive the same for so
    /// many microseconds, in which each call of a chip may spend so many units of fuel.
    Twin(&'a str, &'a str, u32, u32),
    /// A run of the board that is generated from a seed, for so many microseconds.
    Make(u32, u32),
    /// The frames on a bus, read from a wave.
    Decode(&'a str, NamedBus<'a>),
}

/// A command.
#[derive(Clone, Copy)]
enum Command {
    Bare,
    Check,
    Module,
    Run,
    Serve,
    Replay,
    Twin,
    Make,
    Decode,
}

/// The names of words or of options, in their order.
type Names = &'static [&'static str];

/// A file or a folder, whose name is not empty.
fn path<'a>(matches: &ArgMatches<'a>, name: &str) -> Option<&'a str>
    ensures { (given : Given) → AreOf given matches.now → option_map (λ t. t.now) result ≡ path_of name.now given }
{
    match text(matches, name) {
        Some(path) if !path.is_empty() => Some(path),
        _ => None,
    }
}

/// A file that may be named; None where its name is empty.
fn file<'a>(matches: &ArgMatches<'a>, name: &str) -> Option<Option<&'a str>>
    ensures { (given : Given) → AreOf given matches.now → option_map (option_map (λ t. t.now)) result ≡ file_of name.now given }
{
    match text(matches, name) {
        Some(file) if file.is_empty() => None,
        named => Some(named),
    }
}

/// The run time.
fn micros(matches: &ArgMatches) -> Option<u32>
    ensures asked { (given : Given) → AreOf given matches.now → result ≡ micros_of given }
    ensures run_time { IfSome result (λ n. (0 < n) × (n ≤ 10000000)) }
{
    match text(matches, "us") {
        Some(word) => read_number(1, 10_000_000, word),
        None => None,
    }
}

/// The fuel of each call of a chip.
fn budget(matches: &ArgMatches) -> Option<u32>
    ensures { (given : Given) → AreOf given matches.now → result ≡ budget_of given }
{
    match text(matches, "budget") {
        Some(units) => read_number(1, 10_000_000, units),
        None => Some(1_000_000),
    }
}

fn bare<'a>(matches: &ArgMatches<'a>) -> Option<Request<'a>>
    ensures asked { (given : Given) → AreOf given matches.now → option_map asked_of result ≡ bare_of given }
    ensures run_time { IfSome result IsRunTime }
{
    match (path(matches, "hex"), micros(matches)) {
        (Some(hex), Some(micros)) => Some(Request::Bare(hex, micros)),
        _ => None,
    }
}

fn check<'a>(matches: &ArgMatches<'a>) -> Option<Request<'a>>
    ensures asked { (given : Given) → AreOf given matches.now → option_map asked_of result ≡ check_of given }
    ensures run_time { IfSome result IsRunTime }
{
    match path(matches, "folder") {
        Some(folder) => Some(Request::Check(folder)),
        None => None,
    }
}

fn module<'a>(matches: &ArgMatches<'a>) -> Option<Request<'a>>
    ensures asked { (given : Given) → AreOf given matches.now → option_map asked_of result ≡ module_of given }
    ensures run_time { IfSome result IsRunTime }
{
    match path(matches, "file") {
        Some(file) => Some(Request::Module(file)),
        None => None,
    }
}

fn named<'a>(matches: &ArgMatches<'a>) -> Option<NamedFiles<'a>>
    ensures { (given : Given) → AreOf given matches.now → option_map named_by result ≡ named_of given }
{
    match (
        file(matches, "script"),
        file(matches, "vcd"),
        file(matches, "report"),
    ) {
        (Some(script), Some(wave), Some(report)) => Some(NamedFiles {
            script,
            wave,
            report,
        }),
        _ => None,
    }
}

fn run<'a>(matches: &ArgMatches<'a>) -> Option<Request<'a>>
    ensures asked { (given : Given) → AreOf given matches.now → option_map asked_of result ≡ run_of given }
    ensures run_time { IfSome result IsRunTime }
{
    match (
        path(matches, "folder"),
        micros(matches),
        budget(matches),
        named(matches),
    ) {
        (Some(folder), Some(micros), Some(budget), Some(named)) => {
            Some(Request::Run(folder, micros, budget, named))
        }
        _ => None,
    }
}

/// A file that may be named, but not `-`: standard input and standard output have another use.
fn own_file<'a>(matches: &ArgMatches<'a>, name: &str) -> Option<Option<&'a str>>
    ensures { (given : Given) → AreOf given matches.now → option_map (option_map (λ t. t.now)) result ≡ own_file_of name.now given }
{
    match text(matches, name) {
        Some("-") => None,
        Some(file) if file.is_empty() => None,
        named => Some(named),
    }
}

fn serve<'a>(matches: &ArgMatches<'a>) -> Option<Request<'a>>
    ensures asked { (given : Given) → AreOf given matches.now → option_map asked_of result ≡ serve_of given }
    ensures run_time { IfSome result IsRunTime }
{
    match (
        path(matches, "folder"),
        budget(matches),
        own_file(matches, "script"),
        own_file(matches, "vcd"),
    ) {
        (Some(folder), Some(budget), Some(script), Some(wave)) => {
            Some(Request::Serve(folder, budget, script, wave))
        }
        _ => None,
    }
}

fn replay<'a>(matches: &ArgMatches<'a>) -> Option<Request<'a>>
    ensures asked { (given : Given) → AreOf given matches.now → option_map asked_of result ≡ replay_of given }
    ensures run_time { IfSome result IsRunTime }
{
    match (
        path(matches, "folder"),
        path(matches, "wave"),
        micros(matches),
        named(matches),
    ) {
        (Some(folder), Some(wave), Some(micros), Some(named)) => {
            Some(Request::Replay(folder, wave, micros, named))
        }
        _ => None,
    }
}

fn twin<'a>(matches: &ArgMatches<'a>) -> Option<Request<'a>>
    ensures asked { (given : Given) → AreOf given matches.now → option_map asked_of result ≡ twin_of given }
    ensures run_time { IfSome result IsRunTime }
{
    match (
        path(matches, "folder"),
        path(matches, "other"),
        micros(matches),
        budget(matches),
    ) {
        (Some(folder), Some(other), Some(micros), Some(budget)) => {
            Some(Request::Twin(folder, other, micros, budget))
        }
        _ => None,
    }
}

/// The seed of a generated board.
fn seed(matches: &ArgMatches) -> Option<u32>
    ensures { (given : Given) → AreOf given matches.now → result ≡ seed_of given }
{
    match text(matches, "seed") {
        Some(word) => read_number(0, 4_294_967_295, word),
        None => None,
    }
}

fn make<'a>(matches: &ArgMatches<'a>) -> Option<Request<'a>>
    ensures asked { (given : Given) → AreOf given matches.now → option_map asked_of result ≡ make_of given }
    ensures run_time { IfSome result IsRunTime }
{
    match (seed(matches), micros(matches)) {
        (Some(seed), Some(micros)) => Some(Request::Make(seed, micros)),
        _ => None,
    }
}

/// Whether no text has a name.
fn is_absent(matches: &ArgMatches, name: &str) -> bool
    ensures { (given : Given) → AreOf given matches.now → result ≡ is_absent name.now given }
{
    text(matches, name).is_none()
}

fn lacks_uart(matches: &ArgMatches) -> bool
    ensures { (given : Given) → AreOf given matches.now → result ≡ lacks_uart given }
{
    is_absent(matches, "uart") && is_absent(matches, "bit")
}

fn lacks_spi(matches: &ArgMatches) -> bool
    ensures { (given : Given) → AreOf given matches.now → result ≡ lacks_spi given }
{
    is_absent(matches, "spi") && (is_absent(matches, "data") && is_absent(matches, "mode"))
}

fn lacks_i2c(matches: &ArgMatches) -> bool
    ensures { (given : Given) → AreOf given matches.now → result ≡ lacks_i2c given }
{
    is_absent(matches, "i2c") && is_absent(matches, "sda")
}

/// The cycles of a bit.
fn bit(matches: &ArgMatches) -> Option<u32>
    ensures asked { (given : Given) → AreOf given matches.now → result ≡ bit_of given }
    ensures range { IfSome result (λ n. (2 ≤ n) × (n ≤ 1000000)) }
{
    match text(matches, "bit") {
        Some(word) => read_number(2, 1_000_000, word),
        None => None,
    }
}

/// The mode of SPI.
fn mode(matches: &ArgMatches) -> Option<u32>
    ensures asked { (given : Given) → AreOf given matches.now → result ≡ mode_of given }
    ensures range { IfSome result (λ n. n < 4) }
{
    match text(matches, "mode") {
        Some(word) => read_number(0, 3, word),
        None => None,
    }
}

/// `--uart NAME --bit N`
fn uart<'a>(matches: &ArgMatches<'a>) -> Option<NamedBus<'a>>
    ensures asked { (given : Given) → AreOf given matches.now → option_map bus_by result ≡ uart_of given }
    ensures range { IfSome result IsNamedBus }
{
    if !(lacks_spi(matches) && lacks_i2c(matches)) {
        return None;
    }
    match (text(matches, "uart"), bit(matches)) {
        (Some(line), Some(bit)) => Some(NamedBus::Uart(line, bit)),
        _ => None,
    }
}

/// `--spi SCK --data NAME --mode M`
fn spi<'a>(matches: &ArgMatches<'a>) -> Option<NamedBus<'a>>
    ensures asked { (given : Given) → AreOf given matches.now → option_map bus_by result ≡ spi_of given }
    ensures range { IfSome result IsNamedBus }
{
    if !(lacks_uart(matches) && lacks_i2c(matches)) {
        return None;
    }
    match (text(matches, "spi"), text(matches, "data"), mode(matches)) {
        (Some(clock), Some(line), Some(mode)) => Some(NamedBus::Spi(clock, line, mode as u8)),
        _ => None,
    }
}

/// `--i2c SCL --sda NAME`
fn i2c<'a>(matches: &ArgMatches<'a>) -> Option<NamedBus<'a>>
    ensures asked { (given : Given) → AreOf given matches.now → option_map bus_by result ≡ i2c_of given }
    ensures range { IfSome result IsNamedBus }
{
    if !(lacks_uart(matches) && lacks_spi(matches)) {
        return None;
    }
    match (text(matches, "i2c"), text(matches, "sda")) {
        (Some(clock), Some(line)) => Some(NamedBus::I2c(clock, line)),
        _ => None,
    }
}

/// One of the three.
fn bus<'a>(matches: &ArgMatches<'a>) -> Option<NamedBus<'a>>
    ensures asked { (given : Given) → AreOf given matches.now → option_map bus_by result ≡ bus_of given }
    ensures range { IfSome result IsNamedBus }
{
    if let Some(uart) = uart(matches) {
        return Some(uart);
    }
    match spi(matches) {
        Some(spi) => Some(spi),
        None => i2c(matches),
    }
}

fn decode<'a>(matches: &ArgMatches<'a>) -> Option<Request<'a>>
    ensures asked { (given : Given) → AreOf given matches.now → option_map asked_of result ≡ decode_of given }
    ensures run_time { IfSome result IsRunTime }
{
    match (path(matches, "wave"), bus(matches)) {
        (Some(wave), Some(bus)) => Some(Request::Decode(wave, bus)),
        _ => None,
    }
}

fn command_of(word: &str) -> Option<Command>
    ensures { (given : List Text) → asked_by word.now given ≡ asked_with result given }
{
    match word {
        "bare" => Some(Command::Bare),
        "check" => Some(Command::Check),
        "module" => Some(Command::Module),
        "run" => Some(Command::Run),
        "serve" => Some(Command::Serve),
        "replay" => Some(Command::Replay),
        "twin" => Some(Command::Twin),
        "make" => Some(Command::Make),
        "decode" => Some(Command::Decode),
        _ => None,
    }
}

/// What a command has for its positional words, and its options:
/// `bare HEX --us N`, `check FOLDER`, `module FILE`,
/// `run FOLDER --us N [--script FILE] [--vcd FILE] [--report FILE] [--budget N]`,
/// `serve FOLDER [--script FILE] [--vcd FILE] [--budget N]`,
/// `replay FOLDER WAVE --us N [--script FILE] [--vcd FILE] [--report FILE]`,
/// `twin FOLDER OTHER --us N [--budget N]`, `make SEED --us N`, and `decode WAVE` with the words of a bus.
fn syntax_of(command: Command) -> (Names, Names)
    ensures are { syntax_by result ≡ syntax_of command }
    ensures few { length (result.0).now < 100 }
{
    match command {
        Command::Bare => (&["hex"], &["us"]),
        Command::Check => (&["folder"], &[]),
        Command::Module => (&["file"], &[]),
        Command::Run => (&["folder"], &["us", "script", "vcd", "report", "budget"]),
        Command::Serve => (&["folder"], &["script", "vcd", "budget"]),
        Command::Replay => (&["folder", "wave"], &["us", "script", "vcd", "report"]),
        Command::Twin => (&["folder", "other"], &["us", "budget"]),
        Command::Make => (&["seed"], &["us"]),
        Command::Decode => (
            &["wave"],
            &["uart", "bit", "spi", "data", "mode", "i2c", "sda"],
        ),
    }
}

/// What the texts after a command ask for.
fn request_in<'a>(command: Command, matches: &ArgMatches<'a>) -> Option<Request<'a>>
    ensures asked { (given : Given) → AreOf given matches.now → option_map asked_of result ≡ request_of_texts command given }
    ensures run_time { IfSome result IsRunTime }
{
    match command {
        Command::Bare => bare(matches),
        Command::Check => check(matches),
        Command::Module => module(matches),
        Command::Run => run(matches),
        Command::Serve => serve(matches),
        Command::Replay => replay(matches),
        Command::Twin => twin(matches),
        Command::Make => make(matches),
        Command::Decode => decode(matches),
    }
}

/// The request of a command with these words after it.
fn read_command<'a>(
    alloc: Global,
    command: Command,
    given: &'a [String],
) -> Result<Option<Request<'a>>, AllocError>
    ensures request { IfOk result (λ o. option_map asked_of o ≡ asked_with (Some command) (map string_bytes given.entry.now)) }
    ensures run_time { IfOk result (λ o. IfSome o IsRunTime) }
{
    let (words, options) = syntax_of(command);
    match read_texts(alloc, words, options, given)? {
        Some(matches) => Ok(request_in(command, &matches)),
        None => Ok(None),
    }
}

/// The request of the words, which are without the program's name; None where they ask for nothing
/// known.
pub fn read_words(alloc: Global, words: &[String]) -> Result<Option<Request<'_>>, AllocError>
    ensures request { IfOk result (λ o. option_map asked_of o ≡ request_of (map string_bytes words.now)) }
    ensures run_time { IfOk result (λ o. IfSome o IsRunTime) }
{
    let Some((word, given)) = words.split_first() else {
        return Ok(None);
    };
    match command_of(word.as_str()) {
        Some(command) => read_command(alloc, command, given),
        None => Ok(None),
    }
}
