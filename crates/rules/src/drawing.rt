// What a shift register draws for one fragment number.
ghost use Rattle.std.specs.Prelude.{◌≡◌, ◌+◌, ◌*◌, ◌/◌, ◌%◌, ◌^◌, ◌<◌, ◌≤◌, false, length, replicate};
ghost use Rattle.coding.specs.Blocks.{most_fragments};
ghost use Rattle.rules.specs.Filling.{last_number};
ghost use Rattle.rules.specs.Draws.{step as stepped, width, drawn, draws, seed};

// The shift register.
#[derive(Clone, Copy)]
struct Register {
    value: u32,
    ghost small: { value < 2 ^ 24 },
}

impl Register {
    // Where it starts for the fragment number n.
    fn start(m: u16, n: u16) -> Register
        requires { (m < n) × (n ≤ last_number) }
        ensures { result.value ≡ seed m n }
    {
        Register {
            value: 1 + 1001 * u32::from(n - m),
        }
    }

    // One step on.
    #[tactic(auto, using(crate::proofs::Steps::step_code))]
    fn step(self) -> Register
        ensures { result.value ≡ stepped self.value }
    {
        let x = self.value;
        let fed = (x & 1) ^ ((x >> 5) & 1);
        // A sum, not a bitwise or: a start has up to 24 bits.
        Register {
            value: (x >> 1) + (fed << 22),
        }
    }
}

// What a value is divided by.
#[tactic(auto, using(crate::proofs::Steps::power_test))]
fn divisor(m: u16) -> u32
    requires { m ≤ most_fragments }
    ensures { result ≡ width m }
{
    if m.is_power_of_two() {
        u32::from(m) + 1
    } else {
        u32::from(m)
    }
}

// Marks what is drawn for the fragment number n.
#[tactic(auto, using(crate::proofs::Turns::drawn_in, crate::proofs::Turns::drawn_out, crate::proofs::Turns::fewer_left, crate::proofs::Turns::draws_none, crate::proofs::Turns::draws_more))]
pub(crate) fn draw(m: u16, n: u16, row: &mut [bool])
    requires served { (4 ≤ m) × (m ≤ most_fragments) }
    requires number { (m < n) × (n ≤ last_number) }
    requires whole { length row.old ≡ m }
    ensures { row.new ≡ draws (m / 2) m (seed m n) (replicate m false) }
{
    row.fill(false);
    let fragments = u32::from(m);
    let by = divisor(m);
    let mut register = Register::start(m, n);
    'draws: for _ in 0..m / 2 {
        // It ends, since at most 20 values fall out in a row.
        let r = 'values: loop {
            register = register.step();
            let r = register.value % by;
            if r < fragments {
                break r;
            }
        };
        row[r as usize] = true;
    }
}
