//! The bits of an address in a number of its family's width, of which a lookup takes the first ones, and then six at a time.

ghost use Rattle.std.specs.Prelude.{◌≡◌, ℕ, ◌-◌, ◌*◌, ◌/◌, ◌%◌, ◌^◌, ◌<◌};
ghost use Rattle.poptrie_build.specs.Keys.{widened, widened_fits};

/// A number of bits, which contracts see as the first of 128.
pub(crate) trait Key: Copy {
    ghost wide: { Self → ℕ };

    /// Its first bits as a number.
    fn head(self, count: u8) -> usize
        requires { count < 32 }
        ensures { result ≡ wide self / 2 ^ (128 - count) };

    /// Its first six bits as a number.
    fn slot(self) -> u8
        ensures bits { result ≡ wide self / 2 ^ 122 }
        ensures few { result < 64 };

    /// The bits after its first ones.
    fn rest(self, count: u8) -> Self
        requires { count < 32 }
        ensures { wide result ≡ wide self * 2 ^ count % 2 ^ 128 };

    ghost fits: { (key : Self) → wide key < 2 ^ 128 };
}

impl Key for u32 {
    ghost wide = { λ key. widened 32 key };

    ghost fits = { λ key. widened_fits 32 key };

    fn head(self, count: u8) -> usize {
        (u64::from(self) >> (32 - count)) as usize
    }

    fn slot(self) -> u8 {
        (self >> 26) as u8
    }

    fn rest(self, count: u8) -> u32 {
        self << count
    }
}

impl Key for u128 {
    ghost wide = { λ key. widened 128 key };

    ghost fits = { λ key. widened_fits 128 key };

    fn head(self, count: u8) -> usize {
        (((self >> 96) as u64) >> (32 - count)) as usize
    }

    fn slot(self) -> u8 {
        (self >> 122) as u8
    }

    fn rest(self, count: u8) -> u128 {
        self << count
    }
}
