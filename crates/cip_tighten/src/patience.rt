//! When work that brings nothing is tried again.

// The most turns between two tries.
const MOST: u32 = 1 << 10;

/// How many turns go by until the next try: behind each try that brought nothing twice as many and one more, 1,024 at
/// most, and behind one that brought something so many as is said.
#[derive(Clone, Copy)]
pub struct Patience {
    rest: u32,
    left: u32,
}

impl Patience {
    /// The first turn is a try.
    pub fn new() -> Patience {
        Patience { rest: 0, left: 0 }
    }

    /// Takes a turn, and answers whether it is a try.
    pub fn is_turn(&mut self) -> bool {
        match self.left.checked_sub(1) {
            Some(left) => {
                self.left = left;
                false
            }
            None => true,
        }
    }

    /// A try brought something: so many turns go by.
    pub fn gain(&mut self, rest: u32) {
        self.rest = 0;
        self.left = rest;
    }

    /// A try brought nothing: 1 turn goes by, or twice as many and one more as behind the last such try.
    pub fn lose(&mut self) {
        self.rest = self.rest.saturating_mul(2).saturating_add(1).min(MOST);
        self.left = self.rest;
    }
}
