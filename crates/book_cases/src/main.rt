// A table of books, one a line, each checked: what is expected of them was worked out by hand.
//
// A line is a name and items, parted by one blank: `bN` is the byte N, `wN` the number N in two bytes, `"grid"` the bytes
// of a text; `*K` behind an item repeats it K times. The answer is the name and the verdict.
#![tactic(auto)]

use anyhow::Context;
use book::check;
use fault::Cause;

#[cfg(test)]
mod tests;

/// The bytes of one item, put behind `bytes`.
fn put(bytes: &mut Vec<u8>, item: &str) -> anyhow::Result<()> {
    if let Some(number) = item.strip_prefix("b") {
        bytes.push(number.parse::<u8>()?)?;
    } else if let Some(number) = item.strip_prefix("w") {
        bytes.extend_from_slice(&number.parse::<u16>()?.to_be_bytes())?;
    } else {
        for byte in item.bytes().filter(|byte| *byte != b'"') {
            bytes.push(byte)?;
        }
    }
    Ok(())
}

/// The bytes of an item with its count.
fn put_all(bytes: &mut Vec<u8>, item: &str) -> anyhow::Result<()> {
    let Some((once, count)) = item.split_once("*") else {
        return put(bytes, item);
    };
    for _ in 0..count.parse::<u16>()? {
        put(bytes, once)?;
    }
    Ok(())
}

/// Prints the verdict on the book that the line has.
fn judge(rt: &HostRuntime, line: &str) -> anyhow::Result<()> {
    let (name, items) = line.split_once(" ").context("a line without a blank")?;
    let mut bytes = Vec::new(rt.alloc());
    for item in items.split(' ') {
        put_all(&mut bytes, item)?;
    }
    match check(bytes.as_slice()) {
        Ok(kind) => println!(rt; "{name} {kind}")?,
        Err(cause) => println!(rt; "{name} {}", cause.fault())?,
    }
    Ok(())
}

fn main(rt: HostRuntime) -> anyhow::Result<()> {
    for line in rt.lines(rt.alloc()) {
        judge(&rt, line?.as_str())?;
    }
    Ok(())
}
