// Runs headers on both sides of each rule. A line has what was run, the header's answer, and a member, the refusal or the number of members.
#![tactic(auto)]

use answers::{Refusal, number};
use json_header::{Member, Place, check, member};
use json_header_reader::count;
use std::io;

// A member by the kind of its value.
fn found(rt: &impl Print, kind: &str, name: Place, value: Place) -> io::Result<()> {
    print!(rt;
        " {kind} {}-{} {}-{}",
        name.start, name.end, value.start, value.end
    )
}

fn answer(rt: &impl Print, m: Result<Member, Refusal>) -> io::Result<()> {
    match m {
        Ok(Member::String(name, value)) => found(rt, "string", name, value),
        Ok(Member::Number(name, value)) => found(rt, "number", name, value),
        Ok(Member::True(name, value)) => found(rt, "true", name, value),
        Ok(Member::False(name, value)) => found(rt, "false", name, value),
        Ok(Member::Null(name, value)) => found(rt, "null", name, value),
        Ok(Member::Array(name, value)) => found(rt, "array", name, value),
        Ok(Member::Object(name, value)) => found(rt, "object", name, value),
        Err(refusal) => print!(rt; " refused {}", u8::from(refusal)),
    }
}

// One line: member k of the header h.
fn line(rt: &impl Print, what: &str, h: &[u8], k: usize) -> io::Result<()> {
    print!(rt; "{what}: {}", number(check(h)))?;
    answer(rt, member(h, k))?;
    println!(rt)
}

// A line for the first member.
fn row(rt: &impl Print, what: &str, h: &[u8]) -> io::Result<()> {
    line(rt, what, h, 0)
}

// A line for what is counted of a header, one for each member, and one for the number after the last.
fn members(rt: &impl Print, what: &str, h: &[u8]) -> io::Result<()> {
    let counted = count(h);
    let n = counted.unwrap_or(0);
    println!(rt; "{what}: {} counted {n}", number(counted))?;
    for k in 0..n {
        line(rt, what, h, k)?;
    }
    line(rt, what, h, n)
}

// A row for the first `size` bytes of those that `byte` gives by their places.
fn filled_row<F: Fn(usize) -> u8>(
    rt: &impl Print,
    what: &str,
    size: usize,
    byte: F,
) -> io::Result<()>
    requires { F.IsAlwaysCallable byte }
{
    let mut h = [0x20u8; 4100];
    for i in 0..4100 {
        h[i] = byte(i);
    }
    if size <= 4100 {
        row(rt, what, &h[..size])?;
    }
    Ok(())
}

// The byte at place i of the header {"x":"aa..a"} of n bytes.
fn long_byte(i: usize, n: usize) -> u8 {
    if n <= i {
        return 0x20;
    }
    match (n - i, i) {
        (1, _) => 0x7D,
        (2, _) => 0x22,
        (_, 0) => 0x7B,
        (_, 1 | 3 | 5) => 0x22,
        (_, 2) => 0x78,
        (_, 4) => 0x3A,
        _ => 0x61,
    }
}

// A row for that header.
fn long(rt: &impl Print, what: &str, n: usize) -> io::Result<()> {
    filled_row(rt, what, n, |i| long_byte(i, n))
}

// The byte at place i of the header {"aa":0,"ab":0,..} of n members: names of two letters, all different, or the last as the first if `twice`.
fn many_byte(i: usize, n: usize, twice: bool) -> u8 {
    if i == 0 {
        return 0x7B;
    }
    let k = (i - 1) / 7;
    if n <= k {
        return 0x20;
    }
    let last = n - k == 1;
    match (i - 1) % 7 {
        0 | 3 => 0x22,
        1 | 2 if last && twice => 0x61,
        1 => 0x61 + (k / 16 % 16) as u8,
        2 => 0x61 + (k % 16) as u8,
        4 => 0x3A,
        5 => 0x30,
        _ if last => 0x7D,
        _ => 0x2C,
    }
}

// A row for that header, with white space up to 4,096 bytes.
fn many(rt: &impl Print, what: &str, n: usize, twice: bool) -> io::Result<()> {
    filled_row(rt, what, 4096, |i| many_byte(i, n, twice))
}

// Arrays and objects within the depth, and one deeper.
fn depths(rt: &impl Print) -> io::Result<()> {
    row(
        rt,
        "fifteen arrays nested",
        b"{\"x\":[[[[[[[[[[[[[[[]]]]]]]]]]]]]]]}",
    )?;
    row(
        rt,
        "sixteen arrays nested",
        b"{\"x\":[[[[[[[[[[[[[[[[]]]]]]]]]]]]]]]]}",
    )?;
    row(
        rt,
        "fifteen objects nested",
        b"{\"x\":{\"x\":{\"x\":{\"x\":{\"x\":{\"x\":{\"x\":{\"x\":{\"x\":{\"x\":{\"x\":{\"x\":{\"x\":{\"x\":{\"x\":{}}}}}}}}}}}}}}}}",
    )?;
    row(
        rt,
        "sixteen objects nested",
        b"{\"x\":{\"x\":{\"x\":{\"x\":{\"x\":{\"x\":{\"x\":{\"x\":{\"x\":{\"x\":{\"x\":{\"x\":{\"x\":{\"x\":{\"x\":{\"x\":{}}}}}}}}}}}}}}}}}",
    )
}

// The greatest length, one byte more, and no byte.
fn lengths(rt: &impl Print) -> io::Result<()> {
    long(rt, "4,096 bytes", 4096)?;
    long(rt, "4,097 bytes", 4097)?;
    row(rt, "no bytes", b"")
}

// The text is one object.
fn tops(rt: &impl Print) -> io::Result<()> {
    members(rt, "no members", b" { } ")?;
    row(rt, "an array at the top", b"[]")?;
    row(rt, "bytes after the text", b"{}x")
}

// A member of each kind.
fn kinds(rt: &impl Print) -> io::Result<()> {
    members(
        rt,
        "every kind",
        b" {\"s\" : \"\" , \"n\":-1.5e+2, \"t\":true,\"f\": false ,\"u\":null,\"a\": [ 1 , 2 ] ,\"o\": { } } ",
    )
}

// Values and members that the grammar does not derive.
fn values(rt: &impl Print) -> io::Result<()> {
    row(rt, "a number that begins with 0", b"{\"x\":01}")?;
    row(rt, "a number with a plus sign", b"{\"x\":+1}")?;
    row(rt, "a number with no digit after the point", b"{\"x\":1.}")?;
    row(rt, "a word cut short", b"{\"x\":tru}")?;
    row(rt, "a comma after the last element", b"{\"x\":[1,]}")?;
    row(rt, "no colon", b"{\"x\" 1}")?;
    row(rt, "vertical tab", b"{\"x\":\x0B1}")
}

// Escapes.
fn escapes(rt: &impl Print) -> io::Result<()> {
    row(
        rt,
        "every short escape",
        b"{\"x\":\"\\\"\\\\\\/\\b\\f\\n\\r\\t\"}",
    )?;
    row(rt, "another escape", b"{\"x\":\"\\a\"}")?;
    row(rt, "hexadecimal digits", b"{\"x\":\"\\u09AF\"}")?;
    row(rt, "small hexadecimal digits", b"{\"x\":\"\\u09af\"}")?;
    row(rt, "a letter that is no digit", b"{\"x\":\"\\u09ag\"}")?;
    row(rt, "a capital U", b"{\"x\":\"\\U09AF\"}")
}

// Surrogates that are escaped.
fn surrogates(rt: &impl Print) -> io::Result<()> {
    row(rt, "a surrogate pair", b"{\"x\":\"\\uD834\\uDD1E\"}")?;
    row(
        rt,
        "a surrogate pair, small and capital",
        b"{\"x\":\"\\ud834\\uDd1e\"}",
    )?;
    row(rt, "a high surrogate alone", b"{\"x\":\"\\uD834\"}")?;
    row(rt, "a high surrogate twice", b"{\"x\":\"\\uD834\\uD834\"}")?;
    row(rt, "a low surrogate alone", b"{\"x\":\"\\uDD1E\"}")
}

// Control characters.
fn controls(rt: &impl Print) -> io::Result<()> {
    row(rt, "U+0000 escaped", b"{\"x\":\"\\u0000\"}")?;
    row(rt, "U+0000 as a byte", b"{\"x\":\"\x00\"}")?;
    row(rt, "a line feed in a string", b"{\"x\":\"\n\"}")
}

// Characters of two and three octets.
fn octets(rt: &impl Print) -> io::Result<()> {
    row(rt, "U+0080 and U+07FF", b"{\"x\":\"\xC2\x80\xDF\xBF\"}")?;
    row(rt, "overlong form of two", b"{\"x\":\"\xC1\xBF\"}")?;
    row(
        rt,
        "U+0800 and U+FFFF",
        b"{\"x\":\"\xE0\xA0\x80\xEF\xBF\xBF\"}",
    )?;
    row(rt, "overlong form of three", b"{\"x\":\"\xE0\x9F\xBF\"}")?;
    row(rt, "a surrogate in UTF-8", b"{\"x\":\"\xED\xA0\x80\"}")
}

// Characters of four octets, and no character.
fn four_octets(rt: &impl Print) -> io::Result<()> {
    row(
        rt,
        "U+10000 and U+10FFFF",
        b"{\"x\":\"\xF0\x90\x80\x80\xF4\x8F\xBF\xBF\"}",
    )?;
    row(rt, "overlong form of four", b"{\"x\":\"\xF0\x8F\xBF\xBF\"}")?;
    row(rt, "above U+10FFFF", b"{\"x\":\"\xF4\x90\x80\x80\"}")?;
    row(rt, "a tail alone", b"{\"x\":\"\x80\"}")
}

// Byte order marks.
fn marks(rt: &impl Print) -> io::Result<()> {
    row(
        rt,
        "a byte order mark before the text",
        b"\xEF\xBB\xBF{\"x\":1}",
    )?;
    row(
        rt,
        "a byte order mark in a string",
        b"{\"x\":\"\xEF\xBB\xBF\"}",
    )
}

// Names in one object.
fn names(rt: &impl Print) -> io::Result<()> {
    members(rt, "one name twice", b"{\"x\":1,\"x\":2}")?;
    row(rt, "names of different case", b"{\"x\":1,\"X\":2}")?;
    row(
        rt,
        "one name twice, by an escape",
        b"{\"\\uD834\\uDD1E\":1,\"\xF0\x9D\x84\x9E\":2}",
    )?;
    row(
        rt,
        "one name twice, by small and capital digits",
        b"{\"\\u00e9\":1,\"\\u00E9\":2}",
    )?;
    row(rt, "the empty name twice", b"{\"\":1,\"\":2}")?;
    row(rt, "a name twice, then no end", b"{\"x\":1,\"x\":2")
}

// Names in several objects.
fn nested_names(rt: &impl Print) -> io::Result<()> {
    row(
        rt,
        "one name twice in a nested object",
        b"{\"x\":[0,{\"y\":{\"z\":1,\"w\":2,\"z\":3}}]}",
    )?;
    row(
        rt,
        "one name in two objects",
        b"{\"x\":{\"y\":1},\"y\":{\"x\":1}}",
    )?;
    row(
        rt,
        "braces in a string",
        b"{\"x\":\"{\\\"y\\\":1,\\\"y\\\":2}\"}",
    )
}

// Names within a block of the search, and past it.
fn blocks(rt: &impl Print) -> io::Result<()> {
    many(rt, "64 names", 64, false)?;
    many(rt, "65 names", 65, false)?;
    many(rt, "65 names, the last as the first", 65, true)?;
    many(rt, "120 names", 120, false)?;
    many(rt, "120 names, the last as the first", 120, true)
}

// The rules of texts and of the values in them.
fn texts(rt: &impl Print) -> io::Result<()> {
    depths(rt)?;
    lengths(rt)?;
    tops(rt)?;
    kinds(rt)?;
    values(rt)
}

// The rules of strings.
fn strings(rt: &impl Print) -> io::Result<()> {
    escapes(rt)?;
    surrogates(rt)?;
    controls(rt)?;
    octets(rt)?;
    four_octets(rt)?;
    marks(rt)
}

fn main(rt: HostRuntime) -> io::Result<()> {
    texts(&rt)?;
    strings(&rt)?;
    names(&rt)?;
    nested_names(&rt)?;
    blocks(&rt)
}
