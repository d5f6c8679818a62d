// The program `cardlock`: runs a script of calls on a card in a file, with the ring of another file. docs/cardlock.md says how to use it.
#![tactic(auto)]

use aes::Aes;
use anyhow::{anyhow, bail};
use calls::{Call, Step};
use capi::whitened_under;
use cipher::Cipher;
use failure::Failure;
use layout::SECTOR_LENGTH;
use script::{CipherName, Command, Keys, Line, Problem, Source, Target, Told, Wrong, push_hex};
use sector::Ring;
use std::alloc::{AllocError, Global};
use std::rt::Files;
use std::{env, fs};
use xtea::Xtea;

const USAGE: &str = "usage: cardlock IMAGE RING SCRIPT (docs/cardlock.md says what they hold)";

fn main(rt: HostRuntime) -> Result<(), Failure> {
    run(&rt).map_err(|error| Failure::new(rt.alloc(), error))
}

// Runs the script that the program's words name, and prints what came of each call.
fn run(rt: &HostRuntime) -> anyhow::Result<()> {
    // One word more than there may be is enough to see that they are too many.
    let words: Vec<String> = env::args(rt)?.take(5).collect(rt.alloc())?;
    let [_program, image_name, ring_name, script_name] = words.as_slice() else {
        bail!(USAGE);
    };
    let keys = load(rt, ring_name.as_str(), script::parse_ring)?;
    let lines = load(rt, script_name.as_str(), script::parse_script)?;
    let before = load_image(
        rt,
        image_name.as_str(),
        script_name.as_str(),
        keys.cipher(),
        lines.as_slice(),
    )?;
    let mut steps = Vec::new(rt.alloc());
    for line in lines.as_slice() {
        steps.push(Step::new(call_of(rt, &line.command)?))?;
    }
    let mut image = before.clone()?;
    make(
        rt.alloc(),
        &keys,
        image.as_mut_slice(),
        steps.as_mut_slice(),
    )?;
    for (line, step) in lines.iter().zip(steps.iter()) {
        tell(rt, line, step)?;
    }
    for (line, step) in lines.iter().zip(steps.iter()) {
        keep_text(rt, line, step)?;
    }
    if image == before {
        println!(rt; "{image_name}: unchanged")?;
        return Ok(());
    }
    replace(rt, image_name.as_str(), image.as_slice())?;
    println!(rt; "{image_name}: written")?;
    Ok(())
}

// The bytes of a file; an error names it.
fn read_file(rt: &HostRuntime, name: &str) -> anyhow::Result<Vec<u8>> {
    fs::read(rt, name).map_err(|_| told(format!(in rt.alloc(); "{name}: cannot be read")))
}

// The error of this text, or that there was no memory for it.
fn told(text: Result<String, AllocError>) -> anyhow::Error {
    match text {
        Ok(text) => anyhow!("{text}"),
        Err(_) => anyhow!("there is no memory"),
    }
}

// What the text of a file says, read by a parser; an error names the file.
fn load<T, F: FnOnce(Global, &str) -> Result<T, Problem>>(
    rt: &HostRuntime,
    name: &str,
    parse: F,
) -> anyhow::Result<T>
    requires { F.IsAlwaysCallable parse }
{
    let heap = rt.alloc();
    let text = fs::read_to_string(rt, name).map_err(|_| told(format!(in heap;
        "{name}: cannot be read"
    )))?;
    parse(heap, text.as_str()).map_err(|problem| told(format!(in heap; "{name}: {problem}")))
}

// The bytes that the script runs on: those of the file, or, where the script begins with a format for another size, as many zeros as that card has bytes.
fn load_image(
    rt: &HostRuntime,
    name: &str,
    script_name: &str,
    cipher: CipherName,
    lines: &[Line],
) -> anyhow::Result<Vec<u8>> {
    let found = match script::first_length(cipher, lines) {
        None => read_file(rt, name)?,
        Some(length) => match fs::read(rt, name) {
            Ok(bytes) if bytes.len() == length => bytes,
            _ => vec![in rt.alloc(); 0; length]?,
        },
    };
    if let Some(line) = script::other_size(cipher, lines, found.len()) {
        let problem = Problem::Line {
            line,
            wrong: Wrong::OtherSectors,
        };
        return Err(told(format!(in rt.alloc(); "{script_name}: {problem}")));
    }
    Ok(found)
}

// The call of a command, with its text and its buffer.
fn call_of(rt: &HostRuntime, command: &Command) -> anyhow::Result<Call> {
    let heap = rt.alloc();
    Ok(match command {
        Command::Format { number, .. } => Call::Format {
            number: number.clone()?,
        },
        Command::Open => Call::Open,
        Command::Write { sector, key, text } => {
            let text = match text {
                Source::Bytes(bytes) => bytes.clone()?,
                Source::File(name) => read_file(rt, name.as_str())?,
            };
            Call::Write {
                sector: *sector,
                key: *key,
                text,
            }
        }
        Command::Read { sector, .. } => Call::Read {
            sector: *sector,
            buffer: vec![in heap; 0; SECTOR_LENGTH]?,
        },
        Command::Rekey { sector, key } => Call::Rekey {
            sector: *sector,
            key: *key,
        },
        Command::Copy { from, to } => Call::Copy {
            source: *from,
            destination: *to,
        },
        Command::Erase { sector } => Call::Erase { sector: *sector },
    })
}

// Makes the calls in turn, with the ring's ciphers.
fn make(heap: Global, keys: &Keys, image: &mut [u8], steps: &mut [Step]) -> Result<(), AllocError> {
    match keys {
        Keys::Aes(keys) => make_by(heap, keys.as_slice(), image, steps, Aes::new),
        Keys::Xtea(keys) => make_by(heap, keys.as_slice(), image, steps, Xtea::new),
        Keys::Whitened(keys) => make_by(
            heap,
            keys.as_slice(),
            image,
            steps,
            |key| whitened_under(key),
        ),
    }
}

// Makes the calls in turn, with the cipher that each key gives.
fn make_by<K, C: Cipher + Drop, F: FnMut(&K) -> C>(
    heap: Global,
    keys: &[K],
    image: &mut [u8],
    steps: &mut [Step],
    cipher_of: F,
) -> Result<(), AllocError>
    requires { (state : F) (key : _) → F.pre state key }
{
    let ciphers: Vec<C> = keys.iter().map(cipher_of).collect(heap)?;
    calls::run(image, &Ring::new(ciphers.as_slice()), steps);
    Ok(())
}

// Prints a call with its outcome, and a text that was asked for.
fn tell(rt: &HostRuntime, line: &Line, step: &Step) -> anyhow::Result<()> {
    let number = line.line;
    let command = &line.command;
    let outcome = Told {
        outcome: step.outcome,
    };
    println!(rt; "line {number}: {command}: {outcome}")?;
    if let (Some(Target::Shown), Some(text)) = (target(command), text_read(step)) {
        let mut digits = String::new(rt.alloc());
        push_hex(&mut digits, text)?;
        println!(rt; "{digits}")?;
    }
    Ok(())
}

// Writes the text of an accepted read into the file that the script names.
fn keep_text(rt: &HostRuntime, line: &Line, step: &Step) -> anyhow::Result<()> {
    if let (Some(Target::File(name)), Some(text)) = (target(&line.command), text_read(step)) {
        fs::write(rt, name.as_str(), text)?;
    }
    Ok(())
}

// Where the text of a read goes.
fn target(command: &Command) -> Option<&Target> {
    match command {
        Command::Read { to, .. } => Some(to),
        _ => None,
    }
}

// The text of an accepted read.
fn text_read(step: &Step) -> Option<&[u8]> {
    match (step.outcome, &step.call) {
        (Ok(()), Call::Read { buffer, .. }) => Some(buffer.as_slice()),
        _ => None,
    }
}

// Puts new bytes in place of a file: they stand complete under another name before they take its place.
fn replace(rt: &HostRuntime, name: &str, bytes: &[u8]) -> anyhow::Result<()> {
    let temporary = format!(in rt.alloc(); "{name}.new")?;
    fs::write(rt, temporary.as_str(), bytes)?;
    rt.rename(temporary.as_str(), name)?;
    Ok(())
}
