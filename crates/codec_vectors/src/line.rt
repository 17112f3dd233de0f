// One vector.
use crate::{repeat, text};
use base64url_decoding::{DecodeError, decode};
use base64url_encoding::encode;
use std::io;

pub fn run(rt: &impl Print, s: &[u8]) -> io::Result<()> {
    let (name, args) = text::word(s);
    let (a, b) = text::word(args);
    match name {
        b"base64url" => codec(rt, a, b),
        b"sha256" => digest(rt, a, b),
        b"hmac-sha256" => mac(rt, a, text::word(b).0),
        _ => Ok(()),
    }
}

// Bytes and their text: the text decoded, the bytes encoded.
fn codec(rt: &impl Print, hex: &[u8], s: &[u8]) -> io::Result<()> {
    let mut bytes = [0u8; 64];
    let mut out = [0u8; 64];
    let n = text::unhex(hex, &mut bytes);
    rt.write_all(b"base64url ")?;
    decoded(rt, s, &mut out)?;
    rt.write_all(b" ")?;
    encoded(rt, &bytes[..n], &mut out)?;
    rt.write_all(b"\n")
}

fn decoded(rt: &impl Print, s: &[u8], out: &mut [u8]) -> io::Result<()> {
    if matches!(s, b"-") {
        return rt.write_all(b"-");
    }
    match decode(s, out) {
        Ok(n) => text::put_hex(rt, out.get(..n).unwrap_or(&[])),
        Err(DecodeError::Fault(_)) => rt.write_all(b"fault"),
        Err(DecodeError::Short) => rt.write_all(b"short"),
    }
}

fn encoded(rt: &impl Print, s: &[u8], out: &mut [u8]) -> io::Result<()> {
    match encode(s, out) {
        Some(n) => text::put_text(rt, out.get(..n).unwrap_or(&[])),
        None => rt.write_all(b"short"),
    }
}

// A message, or REPEAT, a count and a byte; its digest.
fn digest(rt: &impl Print, a: &[u8], b: &[u8]) -> io::Result<()> {
    rt.write_all(b"sha256 ")?;
    if matches!(a, b"REPEAT") {
        let (count, rest) = text::word(b);
        repeated(rt, count, text::word(rest).0)
    } else {
        hashed(rt, a)
    }
}

fn hashed(rt: &impl Print, hex: &[u8]) -> io::Result<()> {
    let mut message = [0u8; 256];
    let n = text::unhex(hex, &mut message);
    let d = sha256::sha256(&message[..n]);
    text::put_hex(rt, &message[..n])?;
    put_last(rt, &d)
}

fn repeated(rt: &impl Print, count: &[u8], x: &[u8]) -> io::Result<()> {
    let d = repeat::written(count, x);
    rt.write_all(b"REPEAT ")?;
    rt.write_all(count)?;
    rt.write_all(b" ")?;
    rt.write_all(x)?;
    put_last(rt, &d)
}

// A key, a message and their MAC.
fn mac(rt: &impl Print, a: &[u8], b: &[u8]) -> io::Result<()> {
    let mut key = [0u8; 256];
    let mut message = [0u8; 256];
    let n = text::unhex(a, &mut key);
    let m = text::unhex(b, &mut message);
    put_mac(rt, &key[..n], &message[..m])
}

fn put_mac(rt: &impl Print, key: &[u8], message: &[u8]) -> io::Result<()> {
    let d = hmac::hmac_sha256(key, message);
    rt.write_all(b"hmac-sha256 ")?;
    text::put_hex(rt, key)?;
    rt.write_all(b" ")?;
    text::put_hex(rt, message)?;
    put_last(rt, &d)
}

fn put_last(rt: &impl Print, value: &[u8; 32]) -> io::Result<()> {
    rt.write_all(b" ")?;
    text::put_hex(rt, value)?;
    rt.write_all(b"\n")
}
