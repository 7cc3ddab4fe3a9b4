// The line of a reply, piece by piece.
ghost use Rattle.std.specs.Prelude.{◌≡◌, ◌≤◌, ◌++◌, Some, codes, length};
ghost use Rattle.std.specs.Fmt.{decimal, signed_decimal};
ghost use Rattle.hex.specs.Hex.{encode_lower};
ghost use Rattle.transcript.specs.Lines.{reply_line, reply_text, value_text, values_text};
ghost use Rattle.line_printer.specs.Carried.{Prints, told};

use crate::printer::Printer;
use command_set::{Bytes, Reply};
use itoa::Buffer;
use toast_io::Sink;

/// How many bytes are turned into digits at a time.
const PART: usize = 64;

impl Printer {
    /// Prints the line of a session's command with this number, from 1, and the reply to it.
    pub fn print_reply<K: Sink>(&mut self, sink: &mut K, session: u16, number: u32, reply: &Reply)
        ensures { Prints (told K.Sink sink.old) (told K.Sink sink.new) self.old self.new (reply_line session number reply.now) }
    {
        self.put_numbered(sink, "s", u32::from(session));
        self.put_numbered(sink, ".", number);
        self.put(sink, b" ");
        self.put_reply(sink, reply);
        self.put(sink, b"\n");
    }

    // Prints words and a number.
    #[tactic(auto, using(crate::proofs::Carries::prints_on))]
    fn put_numbered<K: Sink>(&mut self, sink: &mut K, words: &str, number: u32)
        requires { length words.now ≤ 128 }
        ensures { Prints (told K.Sink sink.old) (told K.Sink sink.new) self.old self.new (words.now ++ decimal number) }
    {
        let mut digits = Buffer::new();
        self.put(sink, words.as_bytes());
        self.put(sink, digits.format(number).as_bytes());
    }

    // Prints a row's key.
    #[tactic(auto, using(crate::proofs::Carries::prints_on))]
    fn put_key<K: Sink>(&mut self, sink: &mut K, key: &i64)
        ensures { Prints (told K.Sink sink.old) (told K.Sink sink.new) self.old self.new (codes "row " ++ signed_decimal key.now) }
    {
        let mut digits = Buffer::new();
        self.put(sink, b"row ");
        self.put(sink, digits.format(*key).as_bytes());
    }

    // Prints the digits of at most 64 bytes.
    fn put_part<K: Sink>(&mut self, sink: &mut K, part: &[u8])
        requires { length part.now ≤ 64 }
        ensures { Prints (told K.Sink sink.old) (told K.Sink sink.new) self.old self.new (encode_lower part.now) }
    {
        let mut room = [0; 2 * PART];
        let digits = &mut room[..2 * part.len()];
        hex::encode_to_slice(part, digits).unwrap();
        self.put(sink, digits);
    }

    // Prints the digits of bytes.
    fn put_digits<K: Sink>(&mut self, sink: &mut K, bytes: &[u8])
        ensures { Prints (told K.Sink sink.old) (told K.Sink sink.new) self.old self.new (encode_lower bytes.now) }
    {
        let mut rest = bytes;
        while !rest.is_empty() {
            let (part, after) = rest.split_at(rest.len().min(PART));
            self.put_part(sink, part);
            rest = after;
        }
    }

    // Prints a byte string.
    #[tactic(auto, using(crate::proofs::Carries::prints_on))]
    fn put_bytes<K: Sink>(&mut self, sink: &mut K, bytes: &Bytes)
        ensures { Prints (told K.Sink sink.old) (told K.Sink sink.new) self.old self.new (value_text (Some bytes.now)) }
    {
        self.put(sink, b"x");
        self.put_digits(sink, bytes.as_slice());
    }

    // Prints a value, or that it is null.
    fn put_value<K: Sink>(&mut self, sink: &mut K, value: &Option<Bytes>)
        ensures { Prints (told K.Sink sink.old) (told K.Sink sink.new) self.old self.new (value_text value.now) }
    {
        match value {
            Some(bytes) => self.put_bytes(sink, bytes),
            None => self.put(sink, b"null"),
        }
    }

    // Prints a value behind a space.
    #[tactic(auto, using(crate::proofs::Carries::prints_on))]
    fn put_spaced<K: Sink>(&mut self, sink: &mut K, value: &Option<Bytes>)
        ensures { Prints (told K.Sink sink.old) (told K.Sink sink.new) self.old self.new (codes " " ++ value_text value.now) }
    {
        self.put(sink, b" ");
        self.put_value(sink, value);
    }

    // Prints a row's values, each behind a space.
    #[tactic(auto, using(crate::proofs::Carries::prints_on))]
    fn put_values<K: Sink>(&mut self, sink: &mut K, values: &[Option<Bytes>])
        ensures { Prints (told K.Sink sink.old) (told K.Sink sink.new) self.old self.new (values_text values.now) }
    {
        for value in values {
            self.put_spaced(sink, value);
        }
    }

    // Prints a row.
    #[tactic(auto, using(crate::proofs::Carries::prints_on))]
    fn put_row<K: Sink>(&mut self, sink: &mut K, key: &i64, values: &[Option<Bytes>])
        ensures { Prints (told K.Sink sink.old) (told K.Sink sink.new) self.old self.new (reply_text (Reply.Row key.now values.now)) }
    {
        self.put_key(sink, key);
        self.put_values(sink, values);
    }

    // Prints bytes that were read.
    #[tactic(auto, using(crate::proofs::Carries::prints_on))]
    fn put_read<K: Sink>(&mut self, sink: &mut K, bytes: &Bytes)
        ensures { Prints (told K.Sink sink.old) (told K.Sink sink.new) self.old self.new (codes "bytes " ++ value_text (Some bytes.now)) }
    {
        self.put(sink, b"bytes ");
        self.put_bytes(sink, bytes);
    }

    // Prints a reply's words.
    fn put_reply<K: Sink>(&mut self, sink: &mut K, reply: &Reply)
        ensures { Prints (told K.Sink sink.old) (told K.Sink sink.new) self.old self.new (reply_text reply.now) }
    {
        match reply {
            Reply::Okay => self.put(sink, b"ok"),
            Reply::RolledBack => self.put(sink, b"rolled back"),
            Reply::Row { key, row } => self.put_row(sink, key, row.as_slice()),
            Reply::Bytes(bytes) => self.put_read(sink, bytes),
            Reply::Null => self.put(sink, b"null"),
            Reply::Absent => self.put(sink, b"none"),
            Reply::Taken => self.put(sink, b"taken"),
            Reply::Busy { session } => self.put_numbered(sink, "busy s", u32::from(*session)),
            Reply::Changed => self.put(sink, b"changed"),
            Reply::Locked { session } => self.put_numbered(sink, "locked s", u32::from(*session)),
            Reply::Failed => self.put(sink, b"failed"),
            Reply::Outside => self.put(sink, b"outside"),
            Reply::Inside => self.put(sink, b"inside"),
            Reply::TooBig { size } => self.put_numbered(sink, "too big ", *size),
            Reply::BadOffset => self.put(sink, b"bad offset"),
            Reply::NoHandle => self.put(sink, b"no handle"),
            Reply::HandleThere => self.put(sink, b"handle there"),
            Reply::NoValueId => self.put(sink, b"no value id"),
            Reply::Started => self.put(sink, b"started"),
            Reply::Done => self.put(sink, b"done"),
            Reply::Memory => self.put(sink, b"want of memory"),
        }
    }
}
