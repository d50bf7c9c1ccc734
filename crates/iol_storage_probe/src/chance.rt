//! Numbers by chance.
ghost use Rattle.std.specs.Prelude.{◌<◌};

/// Numbers that a seed decides (splitmix64).
#[derive(Drop)]
pub struct Chance {
    state: u64,
}

impl Chance {
    pub fn new(seed: u64) -> Chance {
        Chance { state: seed }
    }

    /// A number below this one, any as often as another.
    pub fn below(&mut self, most: u64) -> u64
        requires { 0 < most }
        ensures { result < most }
    {
        self.state = self.state.wrapping_add(0x9E37_79B9_7F4A_7C15);
        let mixed = (self.state ^ (self.state >> 30)).wrapping_mul(0xBF58_476D_1CE4_E5B9);
        let mixed = (mixed ^ (mixed >> 27)).wrapping_mul(0x94D0_49BB_1331_11EB);
        (mixed ^ (mixed >> 31)) % most
    }

    /// An octet, any as often as another.
    pub fn octet(&mut self) -> u8 {
        self.below(256) as u8
    }

    /// Whether it is so this time: it is once in so many, and never where that is 0.
    pub fn once_in(&mut self, many: u64) -> bool {
        many > 0 && self.below(many) == 0
    }

    /// One of these, any as often as another.
    pub fn one_of<T: Copy + Default>(&mut self, some: &[T]) -> T {
        let count = some.len() as u64;
        if count == 0 {
            return T::default();
        }
        let at = self.below(count);
        some.get(at as usize).copied().unwrap_or_default()
    }
}
