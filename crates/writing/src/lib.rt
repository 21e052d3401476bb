// Bytes in a lent slice.
//
// A pen stores texts one after the other. The contract of each method names its text and says that no other byte changes.
#![tactic(auto)]

ghost use Rattle.std.specs.Prelude.{◌≡◌, [], ◌∷◌, ◌+◌, ◌*◌, ◌/◌, ◌%◌, ◌^◌, ◌<◌, ◌≤◌, length, replicate};
ghost use Rattle.definitions.specs.Bytes.{bytes_of};
ghost use Rattle.definitions.specs.Fields.{headed};
ghost use Rattle.writing.specs.Puts.{Puts};

use definitions::Header;

// A text in the place of as many bytes. Not `copy_from_slice`: that asks for memmove, and the library for C asks for no more than
// memcpy and memset.
fn store(bytes: &mut [u8], text: &[u8])
    requires { length bytes.old ≡ length text.now }
    ensures { bytes.new ≡ text.now }
{
    for (k, byte) in bytes.iter_mut().enumerate() {
        *byte = text[k];
    }
}

// What is lent, and the place in it where the next byte goes.
#[derive(Drop)]
pub struct Pen<'a> {
    pub out: &'a mut [u8],
    pub at: usize,
}

impl Pen<'_> {
    // One byte.
    pub fn put(&mut self, b: u8)
        requires { self.old.at < length self.old.out.now }
        ensures { Puts (b ∷ []) 1 self.old self.new }
    {
        self.out[self.at] = b;
        self.at += 1;
    }

    // A run of bytes.
    pub fn put_word(&mut self, word: &[u8])
        requires { self.old.at + length word.now ≤ length self.old.out.now }
        ensures { Puts word.now (length word.now) self.old self.new }
    {
        let end = self.at + word.len();
        store(&mut self.out[self.at..end], word);
        self.at = end;
    }

    // So many zeros.
    pub fn put_zeros(&mut self, count: usize)
        requires { self.old.at + count ≤ length self.old.out.now }
        ensures { Puts (replicate count 0) count self.old self.new }
    {
        let end = self.at + count;
        self.out[self.at..end].fill(0);
        self.at = end;
    }

    // The last `width` bytes of n, the highest first.
    pub fn put_big(&mut self, n: u64, width: usize)
        requires { (width ≤ 8) × (self.old.at + width ≤ length self.old.out.now) }
        ensures { Puts (bytes_of width n) width self.old self.new }
    {
        self.put_word(&n.to_be_bytes()[8 - width..]);
    }

    // The header of a file in which so many numbers follow.
    pub fn put_header(&mut self, header: Header, numbers: usize)
        requires { (4 * numbers + 11 < 2 ^ 16) × (self.old.at + 13 ≤ length self.old.out.now) }
        ensures { Puts (headed header numbers) 13 self.old self.new }
    {
        self.put_big(4 * numbers as u64 + 11, 2);
        self.put(header.version);
        self.put(header.states);
        self.put(header.highest);
        self.put_big(u64::from(header.tolerance), 4);
        self.put_big(u64::from(header.time), 4);
    }
}
