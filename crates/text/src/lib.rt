// A text put piece by piece, in a lent buffer or in one that it owns, and the line of a refusal.
#![tactic(auto)]

ghost use Rattle.std.specs.Prelude.{◌≡◌, ◌+◌, ◌≤◌, length, take, replicate};
ghost use Rattle.text.specs.Appended.{Appended, SameBuffer};
ghost use Rattle.text.specs.Text.{most_digits, longest_refused, decimal, refused_line};

// The most digits of a number of 64 bits.
pub const MOST_DIGITS: usize = 20;

// A lent buffer with a text at its start, and how long the text is.
// Kept: no heap: a text stands at the start of a lent buffer; what is behind it is promised, too.
#[derive(Drop)]
pub struct LentText<'a> {
    pub bytes: &'a mut [u8],
    pub len: usize,
}

impl<'a> LentText<'a> {
    // No text, in a buffer as it is lent.
    pub fn new(bytes: &'a mut [u8]) -> LentText<'a>
        ensures len { result.len ≡ 0 }
        ensures bytes { result.bytes.now ≡ bytes.old }
        ensures same { result.bytes.ghost_name ≡ bytes.entry.ghost_name }
    {
        LentText { bytes, len: 0 }
    }

    // No text, and the bytes of the buffer as they are.
    pub fn clear(&mut self)
        ensures len { self.new.len ≡ 0 }
        ensures bytes { self.new.bytes.now ≡ self.old.bytes.now }
        ensures same { SameBuffer self.old self.new }
    {
        self.len = 0;
    }

    // The text so far.
    pub fn so_far(&self) -> &[u8]
        requires { self.now.len ≤ length self.now.bytes.now }
        ensures { result.now ≡ take self.now.len self.now.bytes.now }
    {
        &self.bytes[..self.len]
    }

    // Puts bytes as they are.
    // Kept: no heap: std says what `write!` puts only for a String, so every piece is put by these three.
    #[tactic(auto, using(crate::proofs::Appending::append_copied))]
    pub fn put_text(&mut self, piece: &[u8])
        requires { self.old.len + length piece.now ≤ length self.old.bytes.now }
        ensures put { Appended self.old.bytes.now self.old.len piece.now self.new.bytes.now self.new.len }
        ensures same { SameBuffer self.old self.new }
    {
        let end = self.len + piece.len();
        self.bytes[self.len..end].copy_from_slice(piece);
        self.len = end;
    }

    // Puts the decimal digits of n.
    pub fn put_decimal(&mut self, n: u64)
        requires { self.old.len + most_digits ≤ length self.old.bytes.now }
        ensures put { Appended self.old.bytes.now self.old.len (decimal n) self.new.bytes.now self.new.len }
        ensures same { SameBuffer self.old self.new }
    {
        let mut digits = [0u8; MOST_DIGITS];
        let count = io::decimal(n, &mut digits);
        self.put_text(&digits[..count]);
    }

    // Puts the line of a refusal.
    #[tactic(auto, using(crate::proofs::Decimal::decimal_short))]
    pub fn put_refused(&mut self, number: u64)
        requires { self.old.len + longest_refused ≤ length self.old.bytes.now }
        ensures put { Appended self.old.bytes.now self.old.len (refused_line number) self.new.bytes.now self.new.len }
        ensures same { SameBuffer self.old self.new }
    {
        self.put_text(b"refused ");
        self.put_decimal(number);
        self.put_text(b"\n");
    }
}

// No text in a lent buffer; answers how long the text is.
fn begin_in(bytes: &mut [u8]) -> usize
    ensures len { result ≡ 0 }
    ensures bytes { bytes.new ≡ bytes.old }
{
    LentText::new(bytes).len
}

// Puts bytes as they are behind the first `len` of a lent buffer, and answers how long the text is then.
// Kept: the new form is no plainer: one function for these three would take a closure, and have to say what that puts.
fn put_text_in(bytes: &mut [u8], len: usize, piece: &[u8]) -> usize
    requires { len + length piece.now ≤ length bytes.old }
    ensures { Appended bytes.old len piece.now bytes.new result }
{
    let mut text = LentText { bytes, len };
    text.put_text(piece);
    text.len
}

// Puts the decimal digits of n there.
fn put_decimal_in(bytes: &mut [u8], len: usize, n: u64) -> usize
    requires { len + most_digits ≤ length bytes.old }
    ensures { Appended bytes.old len (decimal n) bytes.new result }
{
    let mut text = LentText { bytes, len };
    text.put_decimal(n);
    text.len
}

// Puts the line of a refusal there.
fn put_refused_in(bytes: &mut [u8], len: usize, number: u64) -> usize
    requires { len + longest_refused ≤ length bytes.old }
    ensures { Appended bytes.old len (refused_line number) bytes.new result }
{
    let mut text = LentText { bytes, len };
    text.put_refused(number);
    text.len
}

// A buffer that a text owns, with the text at its start, and how long the text is.
// Kept: no heap: a text stands at the start of its buffer; what is behind it is promised, too. What it puts goes by the lent form.
#[derive(Drop)]
pub struct Text<const N: usize> {
    pub bytes: [u8; N],
    pub len: usize,
    pub ghost within: { len ≤ N },
    pub ghost whole: { length bytes ≡ N },
}

impl<const N: usize> Text<N> {
    // No text, in a buffer of zeros.
    pub fn new() -> Self
        ensures len { result.len ≡ 0 }
        ensures bytes { result.bytes ≡ replicate N 0 }
    {
        let mut bytes = [0; N];
        let len = begin_in(&mut bytes);
        Text { bytes, len }
    }

    // No text, and the bytes of the buffer as they are.
    pub fn clear(&mut self)
        ensures len { self.new.len ≡ 0 }
        ensures bytes { self.new.bytes ≡ self.old.bytes }
    {
        self.len = begin_in(&mut self.bytes);
    }

    // The text so far.
    pub fn so_far(&self) -> &[u8]
        ensures { result.now ≡ take self.now.len self.now.bytes }
    {
        let end = self.len;
        &self.bytes[..end]
    }

    // Puts bytes as they are.
    pub fn put_text(&mut self, piece: &[u8])
        requires { self.old.len + length piece.now ≤ N }
        ensures { Appended self.old.bytes self.old.len piece.now self.new.bytes self.new.len }
    {
        self.len = put_text_in(&mut self.bytes, self.len, piece);
    }

    // Puts the decimal digits of n.
    #[tactic(auto, using(crate::proofs::Appending::appended_within))]
    pub fn put_decimal(&mut self, n: u64)
        requires { self.old.len + most_digits ≤ N }
        ensures { Appended self.old.bytes self.old.len (decimal n) self.new.bytes self.new.len }
    {
        self.len = put_decimal_in(&mut self.bytes, self.len, n);
    }

    // Puts the line of a refusal.
    #[tactic(auto, using(crate::proofs::Appending::appended_within))]
    pub fn put_refused(&mut self, number: u64)
        requires { self.old.len + longest_refused ≤ N }
        ensures { Appended self.old.bytes self.old.len (refused_line number) self.new.bytes self.new.len }
    {
        self.len = put_refused_in(&mut self.bytes, self.len, number);
    }
}

#[cfg(test)]
mod tests {
    use super::*;

    #[test]
    fn text_that_owns_its_buffer(rt: HostRuntime) {
        let mut text = Text::<48>::new();
        assert_eq!(rt; text.so_far(), b"".as_slice());
        text.put_text(b"node ");
        text.put_decimal(75);
        assert_eq!(rt; text.len, 7);
        text.put_refused(17);
        assert_eq!(rt; text.so_far(), b"node 75refused 17\n".as_slice());
        text.clear();
        assert_eq!(rt; text.so_far(), b"".as_slice());
        let first = text.bytes[0];
        assert_eq!(rt; first, b'n');
    }
}
