// A linear congruential generator of 64 bits.
#[derive(Drop)]
pub struct Dice {
    state: u64,
}

impl Dice {
    pub fn new(seed: u64) -> Dice {
        let mut dice = Dice { state: seed };
        let _ = dice.roll(2);
        dice
    }

    // A number below `sides`; 0 of no sides.
    pub fn roll(&mut self, sides: u32) -> u32 {
        let state = self.state.wrapping_mul(6_364_136_223_846_793_005);
        self.state = state.wrapping_add(1_442_695_040_888_963_407);
        (self.state >> 33) as u32 % sides.max(1)
    }

    // A number from 1 to `sides`.
    pub fn one_to(&mut self, sides: u32) -> u32 {
        self.roll(sides).saturating_add(1)
    }

    pub fn one_in(&mut self, sides: u32) -> bool {
        self.roll(sides) == 0
    }

    // One of the choices; the default of none.
    pub fn pick<T: Copy + Default>(&mut self, choices: &[T]) -> T {
        let at = self.roll(u32::try_from(choices.len()).unwrap_or(1));
        choices.get(at as usize).copied().unwrap_or_default()
    }
}
