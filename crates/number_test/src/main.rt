//! Runs the crate number over a table of values. A value's line says whether it is a number, and of a number its text, its
//! encoding in hex and the number decoded again from that.
#![tactic(auto)]

use number::Width;
use std::io;

// The number of an encoding that `encode` wrote.
fn decoded(body: &[u8]) -> Option<i64> {
    let (first, data) = body.split_first()?;
    if data.is_empty() {
        return first.checked_sub(0xF1).map(i64::from);
    }
    if 8 < data.len() {
        return None;
    }
    // `from_le_bytes` reads 8 bytes and no fewer.
    let mut x: u64 = 0;
    for b in data.iter().rev() {
        x = 256 * x + u64::from(*b);
    }
    let width = Width { bytes: data.len() };
    Some(width.decode(x))
}

fn write_number(rt: &impl Print, z: i64) -> io::Result<()> {
    let text = number::text_of(z);
    let body = number::encode(z);
    print!(rt; " number {text} ")?;
    for b in body.as_slice() {
        print!(rt; "{b:02x}")?;
    }
    match decoded(body.as_slice()) {
        Some(again) => print!(rt; " {again}"),
        None => print!(rt; " none"),
    }
}

fn verdict(rt: &impl Print, v: &[u8]) -> io::Result<()> {
    match number::parse(v) {
        Some(z) => write_number(rt, z)?,
        None => print!(rt; " text")?,
    }
    println!(rt; "")
}

// A value on each line.
fn table(rt: &impl Print, values: &str) -> io::Result<()> {
    for value in values.lines() {
        print!(rt; "<{value}>")?;
        verdict(rt, value.as_bytes())?;
    }
    Ok(())
}

fn main(rt: HostRuntime) -> io::Result<()> {
    // The form.
    table(
        &rt,
        "\n0\n00\n-\n-0\n--1\n-01\n007\n+5\n1 \n 1\n1/\n1:\n-a\n5\n-5\n10086\n",
    )?;
    // The edges of the kinds.
    table(
        &rt,
        "12\n13\n-1\n127\n128\n-128\n-129\n32767\n32768\n-32768\n-32769\n",
    )?;
    table(
        &rt,
        "8388607\n8388608\n-8388608\n-8388609\n2147483647\n2147483648\n-2147483648\n-2147483649\n",
    )?;
    // The edges of 64 bits, and of 19 and 20 digits.
    table(
        &rt,
        "9223372036854775807\n9223372036854775808\n-9223372036854775808\n-9223372036854775809\n",
    )?;
    table(
        &rt,
        "1000000000000000000\n-1000000000000000000\n9999999999999999999\n-9999999999999999999\n",
    )?;
    table(
        &rt,
        "10000000000000000000\n-10000000000000000000\n18446744073709551615\n18446744073709551617\n",
    )?;
    print!(rt; "60000 digits")?;
    verdict(&rt, &[b'1'; 60000])
}
