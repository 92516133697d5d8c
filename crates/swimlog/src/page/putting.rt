// Making a page, and putting bytes and numbers on it.
ghost use Rattle.std.specs.Prelude.{◌≡◌, [], ◌∷◌, ◌++◌};
ghost use Rattle.swimlog.specs.Pages.{page_bytes, Room};

use super::Page;
use arrayvec::ArrayVec;
use itoa::{Buffer, Integer};

impl Page {
    // A page with nothing on it.
    pub fn new() -> Page
        ensures { page_bytes result ≡ [] }
    {
        Page {
            bytes: ArrayVec::new(),
        }
    }

    // What was put on it.
    pub fn bytes(&self) -> &[u8]
        ensures { result.now ≡ page_bytes self.now }
    {
        self.bytes.as_slice()
    }

    pub(crate) fn put_byte(&mut self, byte: u8)
        requires { Room self.old (byte ∷ []) }
        ensures { page_bytes self.new ≡ page_bytes self.old ++ (byte ∷ []) }
    {
        self.bytes.push(byte);
    }

    pub(crate) fn put(&mut self, bytes: &[u8])
        requires { Room self.old bytes.now }
        ensures { page_bytes self.new ≡ page_bytes self.old ++ bytes.now }
    {
        self.bytes.try_extend_from_slice(bytes).unwrap();
    }

    // A number in decimal.
    pub(crate) fn put_number<I: Integer>(&mut self, n: I)
        requires { Room self.old (I.text n) }
        ensures { page_bytes self.new ≡ page_bytes self.old ++ I.text n }
    {
        self.put(Buffer::new().format(n).as_bytes());
    }
}
