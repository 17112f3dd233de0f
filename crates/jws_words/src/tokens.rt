// A record as nine words, and the payload's length by them.
ghost use Rattle.std.specs.Prelude.{◌≡◌};
ghost use Rattle.jws_rules.specs.Results.{verify_result};
ghost use Rattle.jws_words.specs.Words.{record_words, payload_word};

use answers::Refusal;
use jws_rules::Record;

// What verifying answers with as nine words: its record, or zeros after a refusal.
// Rules out the key's index and the payload's length exchanged, and the places of `typ` and of `cty`.
pub fn words_of(verified: Result<Record, Refusal>) -> [u64; 9]
    ensures { result ≡ record_words (verify_result verified).details }
{
    let Ok(record) = verified else {
        return [0; 9];
    };
    let choice = record.choice;
    [
        record.header_length as u64,
        record.payload_length as u64,
        choice.key_index as u64,
        u64::from(choice.kid_present),
        u64::from(choice.format),
        choice.typ.start as u64,
        choice.typ.length as u64,
        choice.cty.start as u64,
        choice.cty.length as u64,
    ]
}

// How many bytes of a payload buffer of so many are the payload, by a record's words; 0 if they don't fit.
// Rules out another word's length, and the buffer's length for a payload that doesn't fit.
pub fn payload_word(words: &[u64; 9], room: usize) -> u64
    ensures { result ≡ payload_word words.now room }
{
    jws_payload::part_length(words[1] as usize, room) as u64
}
