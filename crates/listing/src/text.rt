// Text in a lent buffer: each piece is put behind those before it.
ghost use Rattle.std.specs.Prelude.{◌≡◌, cond, [], ◌∷◌, ◌/◌, ◌^◌, ◌<◌, length, take};
ghost use Rattle.listing.specs.Text.{Puts, HasRoom, digit_of, has_digit, digit_at, decimal_of};

// A lent buffer of which the first `len` bytes are written. No String, since what allocates
// can fail and what writes texts here cannot; no Display, of which no contract says the bytes.
// Each piece asks for the room that it takes: no invariant of the type could say how much is left.
#[derive(Drop)]
pub(crate) struct Text<'a> {
    out: &'a mut [u8],
    len: usize,
}

impl<'a> Text<'a> {
    // A text of which nothing is written.
    pub(crate) fn new(out: &'a mut [u8]) -> Text<'a>
        ensures same { result.out.ghost_name ≡ out.entry.ghost_name }
        ensures size { length result.out.now ≡ length out.old }
        ensures len { result.len ≡ 0 }
    {
        Text { out, len: 0 }
    }

    pub(crate) fn len(&self) -> usize
        ensures { result ≡ self.now.len }
    {
        self.len
    }

    pub(crate) fn written(&self) -> &[u8]
        requires { HasRoom self.now 0 }
        ensures { result.now ≡ take self.now.len self.now.out.now }
    {
        &self.out[..self.len]
    }

    pub(crate) fn push(&mut self, byte: u8)
        requires { HasRoom self.old 1 }
        ensures { Puts self.old (byte ∷ []) self.new }
    {
        self.out[self.len] = byte;
        self.len += 1;
    }

    pub(crate) fn put(&mut self, piece: &[u8])
        requires { HasRoom self.old (length piece.now) }
        ensures { Puts self.old piece.now self.new }
    {
        let end = self.len + piece.len();
        self.out[self.len..end].copy_from_slice(piece);
        self.len = end;
    }

    // Puts `piece`, or nothing.
    pub(crate) fn put_if(&mut self, there: bool, piece: &[u8])
        requires { HasRoom self.old (length piece.now) }
        ensures { Puts self.old (cond there piece.now []) self.new }
    {
        if there {
            self.put(piece);
        }
    }

    // Puts the digit of n for 10^k, where n has one.
    #[tactic(auto, unfolding(crate::specs::Text::digit_at))]
    fn put_place(&mut self, n: u64, k: u32)
        requires { HasRoom self.old (length (digit_at n k)) }
        ensures { Puts self.old (digit_at n k) self.new }
    {
        if has_digit(n, k) {
            self.push(digit(n, k));
        }
    }

    // Puts a whole number, with no blank before it.
    pub(crate) fn put_number(&mut self, n: u64)
        requires { HasRoom self.old (length (decimal_of n)) }
        ensures { Puts self.old (decimal_of n) self.new }
    {
        for k in (0..20).rev() {
            self.put_place(n, k);
        }
    }
}

// n / b^k, without its fraction.
pub(crate) fn divided(n: u64, b: u64, k: u32) -> u64
    requires { 0 < b }
    ensures { result ≡ n / b ^ k }
{
    let mut quotient = n;
    for _ in 0..k {
        quotient /= b;
    }
    quotient
}

#[tactic(auto, unfolding(crate::specs::Text::digit_of))]
pub(crate) fn digit(n: u64, k: u32) -> u8
    ensures { result ≡ digit_of n k }
{
    48 + (divided(n, 10, k) % 10) as u8
}

#[tactic(auto, using(crate::proofs::Sizes::sizes), unfolding(crate::specs::Text::has_digit))]
pub(crate) fn has_digit(n: u64, k: u32) -> bool
    ensures { result ≡ has_digit n k }
{
    k == 0 || divided(n, 10, k) > 0
}
