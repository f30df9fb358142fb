//! Writes an example card to volume.img, with numbers written over parts of it if any are given.
#![tactic(auto)]

use anyhow::{Context, bail};
use cards::card::Card;
use cards::example::Example;
use numbers::sector::Sector;
use std::{env, fs};

/// The file that is written.
const IMAGE: &str = "volume.img";

/// The names of the examples.
const CARDS: &str = "empty, two-files, odd, long, two-levels, three-levels or four-levels";

/// The number that a word of the command line says.
fn number(word: &str) -> anyhow::Result<u32> {
    word.parse().context(format_args!("{word:?} is no number"))
}

/// Writes a number over the four bytes of a sector from an offset on.
fn write_over(card: &mut Card<'_>, edit: &[String]) -> anyhow::Result<()> {
    let [sector, offset, value] = edit else {
        bail!("a change has a sector, an offset and a number");
    };
    let sector = u16::try_from(number(sector.as_str())?).context("there is no such sector")?;
    let offset = number(offset.as_str())? as usize;
    card.put_word(Sector(sector), offset, number(value.as_str())?)?;
    Ok(())
}

fn serve(rt: &HostRuntime) -> anyhow::Result<()> {
    let args: Vec<String> = env::args(rt)?.collect(rt.alloc())?;
    let [_, name, edits @ ..] = args.as_slice() else {
        bail!("which card: {CARDS}?");
    };
    let name = name.as_str();
    let example = Example::named(name).context(format_args!("there is no card {name:?}"))?;
    let sectors = example.sectors();
    let mut image = vec![in rt.alloc(); 0u8; 1024 * sectors]?;
    let mut card = Card::new(&mut image);
    example.build(&mut card)?;
    for edit in edits.chunks(3) {
        write_over(&mut card, edit)?;
    }
    fs::write(rt, IMAGE, image.as_slice())?;
    println!(rt; "{example},{sectors}")?;
    Ok(())
}

fn main(rt: HostRuntime) -> anyhow::Result<()> {
    serve(&rt)
}
