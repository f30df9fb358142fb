//! Tells whether a card is sound, and what is on it, or the first thing that is wrong.
#![tactic(auto)]

mod report;

use anyhow::{Context, bail};
use disk::image::Image;
use report::{Report, most_bytes};
use std::io::Read;
use std::process::ExitCode;
use std::{env, fs};

/// The card that is read where none is named.
const IMAGE: &str = "volume.img";

/// The bytes of a card.
fn read_card(rt: &HostRuntime, path: &str) -> anyhow::Result<Vec<u8>> {
    let mut bytes = Vec::new(rt.alloc());
    let file = fs::open(rt, path).context(format_args!("cannot open {path:?}"))?;
    file.take(most_bytes() as u64)
        .read_to_end(&mut bytes)
        .context(format_args!("cannot read {path:?}"))?;
    Ok(bytes)
}

fn serve(rt: &HostRuntime) -> anyhow::Result<ExitCode> {
    let args: Vec<String> = env::args(rt)
        .context("a word of the command line is no text")?
        .collect(rt.alloc())?;
    let path = match args.as_slice() {
        [] | [_] => IMAGE,
        [_, path] => path.as_str(),
        _ => bail!("one card at a time"),
    };
    let mut bytes = read_card(rt, path)?;
    let report = Report::of(rt.alloc(), &mut Image::new(&mut bytes))?;
    println!(rt; "{report}")?;
    Ok(if report.is_sound() {
        ExitCode::SUCCESS
    } else {
        ExitCode::FAILURE
    })
}

fn main(rt: HostRuntime) -> anyhow::Result<ExitCode> {
    serve(&rt)
}
