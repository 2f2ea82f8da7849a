//! Runs the commands of `marm` that are typed in `commands.txt`, one after another, and writes what each of them writes
//! and its status. CI compares that with what is stored.
#![tactic(auto)]

use command::program;
use std::{env, fs, io};

/// What is printed for words that don't fit.
const USAGE: &str = "usage: transcripts all, transcripts one NUMBER, or transcripts one COMMAND";

/// The file of the commands, a line each. A line that begins with # is a comment.
const COMMANDS: &str = "commands.txt";

/// What a line of a transcript begins with that is a command. The lines between two commands are answers.
const PROMPT: &str = "> ";

fn main(rt: HostRuntime) -> io::Result<()> {
    let mut words = env::args(&rt)?;
    let (Some(_), Some(first)) = (words.next(), words.next()) else {
        return rt.println(USAGE);
    };
    match (first.as_str(), words.next()) {
        ("all", None) => run_all(&rt),
        ("one", Some(word)) => run_one(&rt, word.as_str()),
        _ => rt.println(USAGE),
    }
}

/// Runs each command of the file.
fn run_all(rt: &HostRuntime) -> io::Result<()> {
    let text = fs::read_to_string(rt, COMMANDS)?;
    for line in text.lines() {
        if is_command(line) {
            run_command(rt, line)?;
        }
    }
    Ok(())
}

/// Runs the command of the file with a number, from 1 on, or a command that is typed like those.
fn run_one(rt: &HostRuntime, word: &str) -> io::Result<()> {
    let Ok(number) = word.parse::<u64>() else {
        return run_command(rt, word);
    };
    let text = fs::read_to_string(rt, COMMANDS)?;
    let mut count = 0_u64;
    for line in text.lines() {
        if is_command(line) {
            count = count.saturating_add(1);
            if count == number {
                return run_command(rt, line);
            }
        }
    }
    println!(rt; "{COMMANDS} has {count} commands")
}

/// Returns whether a line is a command: it is neither empty nor a comment.
fn is_command(line: &str) -> bool {
    !line.is_empty() && !line.starts_with('#')
}

/// Runs a command as the program `marm` does, with the input that it names: `< FILE` is the bytes of a file, `<> FILE`
/// the commands of a transcript. Writes after it a line with its name and its status.
fn run_command(rt: &HostRuntime, line: &str) -> io::Result<()> {
    let name = name_of(line);
    if let Some((typed, file)) = line.split_once(" <> ") {
        let commands = commands_of(rt, file)?;
        return run_words(rt, typed, commands.as_bytes(), name);
    }
    if let Some((typed, file)) = line.split_once(" < ") {
        let input = fs::read(rt, file)?;
        return run_words(rt, typed, input.as_slice(), name);
    }
    run_words(rt, line, b"", name)
}

/// Runs the words of a command on its input, and writes after it a line with its name and its status.
fn run_words(rt: &HostRuntime, typed: &str, input: &[u8], name: &str) -> io::Result<()> {
    let mut words = Vec::new(rt.alloc());
    for word in typed.split_whitespace() {
        words.push(without_quotes(word).to_string(rt.alloc())?)?;
    }
    let status = program(
        rt,
        words.as_slice(),
        input,
        io::writer(rt),
        &mut rt.stderr(),
    );
    println!(rt; "\n{name}: status {status}")
}

/// Returns the name of a command: its last word, the name of a file, up to the last dot.
fn name_of(line: &str) -> &str {
    let word = match line.rsplit_once(' ') {
        Some((_, last)) => without_quotes(last),
        None => line,
    };
    match word.rsplit_once('.') {
        Some((name, _)) => name,
        None => word,
    }
}

/// Returns a word without the quotes around it, with which a shell takes it as it is.
fn without_quotes(word: &str) -> &str {
    match word.strip_prefix('"') {
        Some(rest) => rest.strip_suffix('"').unwrap_or(rest),
        None => word,
    }
}

/// Returns the commands of a transcript, a line each.
fn commands_of(rt: &HostRuntime, file: &str) -> io::Result<String> {
    let transcript = fs::read_to_string(rt, file)?;
    let mut commands = String::new(rt.alloc());
    for line in transcript.lines() {
        if let Some(command) = line.strip_prefix(PROMPT) {
            commands.push_str(command)?;
            commands.push('\n')?;
        }
    }
    Ok(commands)
}
