// What is printed, and the digest of what the runs of a case say.
ghost use Rattle.std.specs.Prelude.{◌≤◌, length};

// That it cannot be written is no reason to stop. (check_report has the same over `Eprint`.)
pub fn text(rt: &impl Print, words: &str) {
    let _ = rt.print(words);
}

pub fn number(rt: &impl Print, name: &str, n: usize) {
    let _ = print!(rt; "{name}{n}");
}

// Bytes after their name.
pub fn hex(rt: &impl Print, name: &str, bytes: &[u8]) {
    text(rt, name);
    for byte in bytes {
        let _ = print!(rt; "{byte:02x}");
    }
}

// The first n bytes, or as many as there are.
pub fn prefix(bytes: &[u8], n: usize) -> &[u8]
    ensures { length result.now ≤ length bytes.now }
{
    bytes.get(..n).unwrap_or(bytes)
}

const PRIME: u64 = 4294967291;

// What of the runs is printed: the wrong bytes stand in a line of their own.
#[derive(Clone, Copy, PartialEq, Eq)]
pub enum Aloud {
    AllButWrongBytes,
    WrongBytes,
    Nothing,
}

// What runs say is digits of one number to the base 256. The digest is its remainder by the largest
// prime below 2^32: where one byte differs, so does the digest.
#[derive(Drop)]
pub struct Said<'a, P: Print> {
    rt: &'a P,
    pub aloud: Aloud,
    pub digest: u32,
}

impl<'a, P: Print> Said<'a, P> {
    // Nothing so far.
    pub fn new(rt: &'a P, aloud: Aloud) -> Said<'a, P> {
        Said {
            rt,
            aloud,
            digest: 0,
        }
    }

    fn digit(&mut self, n: u32) {
        self.digest = ((u64::from(self.digest) * 256 + u64::from(n)) % PRIME) as u32;
    }

    // A number after its name.
    pub fn number(&mut self, name: &str, n: u32) {
        if self.aloud == Aloud::AllButWrongBytes {
            let _ = print!(self.rt; "{name}{n:02x}");
        }
        self.digit(n);
    }

    // Bytes after their name.
    pub fn bytes(&mut self, name: &str, bytes: &[u8]) {
        if self.aloud == Aloud::AllButWrongBytes {
            hex(self.rt, name, bytes);
        }
        for byte in bytes {
            self.digit(u32::from(*byte));
        }
    }

    // The wrong byte of a packet. The digit is one more, and 0 where there is none.
    pub fn wrong(&mut self, wrong: Option<u8>) {
        if self.aloud == Aloud::WrongBytes {
            match wrong {
                Some(n) => number(self.rt, " ", usize::from(n)),
                None => text(self.rt, " -"),
            }
        }
        self.digit(wrong.map_or(0, |n| u32::from(n) + 1));
    }
}
