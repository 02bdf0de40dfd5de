// The output, in a room that is written when it is nearly full.
ghost use Rattle.std.specs.Prelude.{◌≡◌, ◌+◌, ◌≤◌, length, OnOk};
ghost use Rattle.registering.specs.Ends.{Ended};

use refusal::Refusal;
use std::env::Env;

// How large the room is.
const SPACE: usize = 16384;

// What is put at once is never longer: a word, a number or one form of a text.
const LEAST: usize = 64;

// Why nothing more is put or written: the file could not be read on, or a write failed.
#[derive(Clone, Copy, PartialEq, Eq)]
pub enum Stopped {
    Unread,
    Unwritten,
}

// A reader that refuses, or has no room.
impl From<Refusal> for Stopped {
    fn from(_refusal: Refusal) -> Stopped {
        Stopped::Unread
    }
}

// The room, and how much of it is used.
#[derive(Drop)]
pub struct Output {
    room: [u8; SPACE],
    used: usize,
    ghost in_room: { used ≤ 16384 },
    ghost whole: { length room ≡ 16384 },
}

impl Output {
    pub fn new() -> Output {
        Output {
            room: [0u8; SPACE],
            used: 0,
        }
    }

    // Writes what is there.
    pub fn flush(&mut self, rt: &(impl Env + Print)) -> Result<(), Stopped>
        ensures { OnOk result (self.new.used ≡ 0) }
    {
        if !checking::write_output(rt, &self.room[..self.used]) {
            return Err(Stopped::Unwritten);
        }
        self.used = 0;
        Ok(())
    }

    // Room for what is put at once.
    fn reserve(&mut self, rt: &(impl Env + Print)) -> Result<(), Stopped>
        ensures { OnOk result (self.new.used + 64 ≤ 16384) }
    {
        if SPACE - LEAST < self.used {
            self.flush(rt)?;
        }
        Ok(())
    }

    // A word of the format.
    pub fn put(&mut self, rt: &(impl Env + Print), word: &[u8]) -> Result<(), Stopped> {
        self.reserve(rt)?;
        let k = report::text_into(word, &mut self.room[self.used..])?;
        self.used += k;
        Ok(())
    }

    // A number.
    pub fn put_number(&mut self, rt: &(impl Env + Print), n: u64) -> Result<(), Stopped> {
        self.reserve(rt)?;
        let k = report::number_into(n, &mut self.room[self.used..])?;
        self.used += k;
        Ok(())
    }

    // A signed number.
    pub fn put_integer(&mut self, rt: &(impl Env + Print), n: i64) -> Result<(), Stopped> {
        self.reserve(rt)?;
        let k = register_text::integer_into(n, &mut self.room[self.used..])?;
        self.used += k;
        Ok(())
    }

    // A magnitude with its sign.
    pub fn put_signed(
        &mut self,
        rt: &(impl Env + Print),
        negative: bool,
        n: u64,
    ) -> Result<(), Stopped> {
        self.reserve(rt)?;
        let k = register_text::signed_into(negative, n, &mut self.room[self.used..])?;
        self.used += k;
        Ok(())
    }

    // Bits, in so many hexadecimal digits.
    pub fn put_bits(
        &mut self,
        rt: &(impl Env + Print),
        n: u64,
        digits: usize,
    ) -> Result<(), Stopped> {
        self.reserve(rt)?;
        let k = register_text::hex_into(n, digits, &mut self.room[self.used..])?;
        self.used += k;
        Ok(())
    }

    // A text, of any length, piece by piece; `key` for a name of a key.
    pub fn put_text(
        &mut self,
        rt: &(impl Env + Print),
        text: &[u8],
        key: bool,
    ) -> Result<(), Stopped> {
        let mut i: usize = 0;
        // `while`: a piece takes as many bytes as there is room for.
        while i < text.len() {
            self.reserve(rt)?;
            let piece = register_text::escape_into(text, i, key, &mut self.room[self.used..]);
            i = piece.next;
            self.used += piece.used;
        }
        Ok(())
    }

    // The bytes of a name as they are.
    fn put_bytes(&mut self, rt: &(impl Env + Print), name: &[u8]) -> Result<(), Stopped> {
        for b in name {
            self.put(rt, &[*b])?;
        }
        Ok(())
    }

    // The line of a file's name, where it has one.
    pub fn put_heading(&mut self, rt: &(impl Env + Print), name: &[u8]) -> Result<(), Stopped> {
        if name.is_empty() {
            return Ok(());
        }
        self.put(rt, b"file=")?;
        self.put_bytes(rt, name)?;
        self.put(rt, b"\n")
    }
}

// What a register comes to: 0, or what was not read or written.
pub fn ended(written: Result<(), Stopped>, what: &[u8]) -> u8
    ensures { Ended result }
{
    match written {
        Ok(()) => 0,
        Err(Stopped::Unread) => checking::complain(what, b": its register could not be read\n"),
        Err(Stopped::Unwritten) => checking::UNWRITTEN,
    }
}
