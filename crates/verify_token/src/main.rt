// Verifies a token: reads `table.bin` and `token.txt` in the working folder and prints one line, `accepted key=0 fmt=1 payload=70`
// or `refused ` and the answer's number.
#![tactic(auto)]

ghost use Rattle.std.specs.Counts.{IsPrefixLen};

use answers::Refusal;
use json_rules::LONGEST;
use jws_rules::{Record, TOKEN_MOST};
use reading::read_full;
use std::fs::File;
use std::io;
use std::io::Read;
use std::rt::Files;

// A byte more than the longest table and the longest token, so that a longer file is seen to be longer.
const TABLE_ROOM: usize = 8193;

const TOKEN_ROOM: usize = TOKEN_MOST + 1;

// What the longest header and the payload of the longest token take.
const HEADER_ROOM: usize = LONGEST;

const PAYLOAD_ROOM: usize = TOKEN_MOST / 4 * 3;

fn print(rt: &impl Print, verified: Result<Record, Refusal>) -> io::Result<()> {
    match verified {
        Ok(record) => println!(rt;
            "accepted key={} fmt={} payload={}",
            record.choice.key_index, record.choice.format, record.payload_length
        ),
        Err(refusal) => println!(rt; "refused {}", u8::from(refusal)),
    }
}

// Whether the file is at its end: there a further read gives no byte. One that failed fails again, or goes on where it stopped.
fn at_end(file: &mut impl Read) -> bool {
    let mut next = [0u8; 1];
    matches!(file.read(&mut next), Ok(0))
}

// Reads a file's first bytes, as many as there is room for, and answers how many. A file that can't be opened, or that can't be read to
// its end, counts as empty: no part of a file is judged as if it were the whole.
fn load(rt: &impl Files, path: &str, room: &mut [u8]) -> usize
    ensures { IsPrefixLen result room.new }
{
    let Ok(mut file) = File::open(rt, path) else {
        return 0;
    };
    let n = read_full(&mut file, room);
    if n == room.len() || at_end(&mut file) {
        return n;
    }
    0
}

fn main(rt: HostRuntime) -> io::Result<()> {
    let mut table = [0u8; TABLE_ROOM];
    let mut token = [0u8; TOKEN_ROOM];
    let mut header = [0u8; HEADER_ROOM];
    let mut payload = [0u8; PAYLOAD_ROOM];
    let n = load(&rt, "table.bin", &mut table);
    let m = load(&rt, "token.txt", &mut token);
    print(
        &rt,
        jws::verify(&token[..m], &table[..n], &mut header, &mut payload),
    )
}
