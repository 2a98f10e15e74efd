// Adding lists place by place, once for every kind of element.
#![tactic(auto)]

ghost use Rattle.std.specs.Prelude.{◌≡◌, min, false, length, bit_xor};
ghost use Rattle.adding.specs.Sums.{Laws, differ, added, sum as total};
ghost use Rattle.adding.specs.Laws.{mark_laws, byte_laws};

/// A kind of element whose adding is associative and commutative, has a zero, and gives zero for an element added to itself.
pub trait Element: Copy {
    ghost zero: { Self };

    ghost sum: { Self → Self → Self };

    /// The zero.
    fn none() -> Self
        ensures { result ≡ zero };

    /// The sum of two elements.
    fn plus(self, other: Self) -> Self
        ensures { result ≡ sum self other };

    // Adding is associative and commutative, the zero changes nothing, and an element added to itself gives the zero.
    ghost laws: { Laws zero sum };
}

/// Marks: two are added to yes where they differ.
impl Element for bool {
    ghost zero = { false };

    ghost sum = { differ };

    ghost laws = { mark_laws };

    fn none() -> bool {
        false
    }

    fn plus(self, other: bool) -> bool {
        self != other
    }
}

/// Bytes: two are added by exclusive or.
impl Element for u8 {
    ghost zero = { 0 };

    ghost sum = { bit_xor };

    ghost laws = { byte_laws };

    fn none() -> u8 {
        0
    }

    fn plus(self, other: u8) -> u8 {
        self ^ other
    }
}

// Adds a list into one of its length.
fn add_each<E: Element>(a: &mut [E], b: &[E])
    requires { length a.old ≡ length b.now }
    ensures whole { a.new ≡ total E.sum a.old b.now }
    ensures back { total E.sum a.new b.now ≡ a.old }
{
    // Kept: `b[i]`, since no proof knows what a `zip` over `iter_mut` leaves in the list.
    for (i, x) in a.iter_mut().enumerate() {
        *x = x.plus(b[i]);
    }
}

/// Adds `b` into `a` place by place. Where `b` is shorter the rest of `a` stays; where it is longer its rest does not count.
/// Lists of one length become their sum. Adding `b` once more would give `a` back.
#[tactic(auto, using(crate::proofs::Turns::front_added, crate::proofs::Turns::front_back))]
pub fn add_into<E: Element>(a: &mut [E], b: &[E])
    ensures places { a.new ≡ added E.sum a.old b.now }
    ensures equal { length a.old ≡ length b.now → a.new ≡ total E.sum a.old b.now }
    ensures back { added E.sum a.new b.now ≡ a.old }
{
    let n = a.len().min(b.len());
    add_each(&mut a[..n], &b[..n]);
}

#[cfg(test)]
mod tests {
    use super::*;

    #[test]
    fn bytes_and_marks(rt: HostRuntime) {
        let mut bytes = [0x05u8, 0x0a, 0xff];
        add_into(&mut bytes, &[0x06, 0x0a]);
        assert_eq!(rt; bytes, [0x03, 0x00, 0xff]);
        let mut marks = [true, true, false];
        add_into(&mut marks, &[true, false, true, true]);
        assert_eq!(rt; marks, [false, true, true]);
    }
}
