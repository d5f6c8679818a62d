// The program `manifest`: reads the image of a card with 16-byte blocks from standard input and prints what each sector holds.
#![tactic(auto)]

use anyhow::bail;
use failure::Failure;
use listing::LONGEST_IMAGE;
use poly::Wide;
use std::env;
use std::io::Read;

fn main(rt: HostRuntime) -> Result<(), Failure> {
    run(&rt).map_err(|error| Failure::new(rt.alloc(), error))
}

// Prints the manifest of the card on standard input, or, given a word, only the usage. One byte more than a lawful image is enough to see that it is too long.
fn run(rt: &HostRuntime) -> anyhow::Result<()> {
    if let Some(word) = env::args(rt)?.nth(1) {
        return explain(rt, word.as_str());
    }
    let heap = rt.alloc();
    let mut image = Vec::new(heap);
    let _ = rt
        .stdin()
        .take(LONGEST_IMAGE as u64 + 1)
        .read_to_end(&mut image)?;
    let text = listing::manifest::<Wide>(heap, image.as_slice())?;
    print!(rt; "{text}")?;
    Ok(())
}

// Prints the usage for `--help`; any other word is an error.
fn explain(rt: &HostRuntime, word: &str) -> anyhow::Result<()> {
    if word != "--help" {
        bail!("manifest takes no arguments; manifest --help says what it reads");
    }
    println!(rt; "usage: manifest < IMAGE")?;
    println!(rt;
        "Prints what a card with 16-byte blocks holds, with no key: its block length and number of sectors,"
    )?;
    println!(rt; "then for each sector 'blank' or the number of the key that seals it.")?;
    println!(rt;
        "Of an image that is no such card it prints one line: 'refused', the number of the refusal and,"
    )?;
    println!(rt; "for a bad mark (7) or a blank sector that is not zero (8), the sector.")?;
    println!(rt;
        "2: the image's length is wrong, or it has more than 65536 bytes. 3: it does not begin as a card does."
    )?;
    println!(rt;
        "Status: 0 if a manifest or a refusal was printed, 1 if the input could not be read or there was an argument other than --help."
    )?;
    Ok(())
}
