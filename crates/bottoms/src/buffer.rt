// Who holds the bytes of a bottom.
ghost use Rattle.std.specs.Prelude.{◌≡◌, ℕ, List, ⊤};
ghost use Rattle.bottoms.specs.Parts.{put};

/// Who holds the bytes that a bottom lies in: a lent slice, an array, a `Vec`, or any of them lent. A holder keeps its length.
// Kept: not the library's `AsSlice`, which a lent array lacks; and a part is put in, since a body that lends the bytes on gets no proof.
pub trait Buffer {
    ghost bytes: { Self → List ℕ };

    // What a write leaves of the holder beside its length: of a lent slice, whose loan it is.
    ghost Name: { Type 0 };

    ghost name: { Self → Name };

    /// The bytes.
    fn bytes(&self) -> &[u8]
        ensures { result.now ≡ bytes self.now };

    /// Writes the part from `at` on, as far as there is room.
    fn put(&mut self, at: usize, part: &[u8])
        ensures bytes { bytes self.new ≡ put (bytes self.old) at part.now }
        ensures holder { name self.new ≡ name self.old };
}

fn put(buf: &mut [u8], at: usize, part: &[u8])
    ensures { buf.new ≡ put buf.old at part.now }
{
    let at = at.min(buf.len());
    let n = part.len().min(buf.len() - at);
    buf[at..at + n].copy_from_slice(&part[..n]);
}

impl Buffer for &mut [u8] {
    ghost bytes = { λ s. s.now };

    ghost Name = { ℕ };

    ghost name = { λ s. s.ghost_name };

    fn bytes(&self) -> &[u8] {
        &self[..]
    }

    fn put(&mut self, at: usize, part: &[u8]) {
        put(self, at, part);
    }
}

impl<const N: usize> Buffer for [u8; N] {
    ghost bytes = { λ s. s };

    ghost Name = { ⊤ };

    ghost name = { λ _. tt };

    fn bytes(&self) -> &[u8] {
        &self[..N]
    }

    fn put(&mut self, at: usize, part: &[u8]) {
        put(&mut self[..], at, part);
    }
}

impl Buffer for Vec<u8> {
    ghost bytes = { λ s. s.items };

    ghost Name = { ⊤ };

    ghost name = { λ _. tt };

    fn bytes(&self) -> &[u8] {
        self.as_slice()
    }

    fn put(&mut self, at: usize, part: &[u8]) {
        put(self.as_mut_slice(), at, part);
    }
}

/// A holder that is lent.
impl<B: Buffer> Buffer for &mut B {
    ghost bytes = { λ s. B.bytes s.now };

    ghost Name = { ℕ × B.Name };

    ghost name = { λ s. (s.ghost_name, B.name s.now) };

    fn bytes(&self) -> &[u8] {
        (**self).bytes()
    }

    fn put(&mut self, at: usize, part: &[u8]) {
        (**self).put(at, part);
    }
}
