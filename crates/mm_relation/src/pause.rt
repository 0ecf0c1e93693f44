//! When to try again what only spares time, and was in vain.

/// How often something is left out: once after it was in vain, and twice as often each time that it is so again. What never serves
/// is so tried a few times in a million.
#[derive(Drop)]
pub struct Pause {
    // how often it is still left out
    left: usize,
    // how often it will be, the next time that it is in vain
    next: usize,
}

impl Pause {
    /// None: it was not tried so far.
    pub fn new() -> Pause {
        Pause { left: 0, next: 1 }
    }

    /// Whether it is left out this time.
    pub fn goes_on(&mut self) -> bool {
        if self.left == 0 {
            return false;
        }
        self.left -= 1;
        true
    }

    /// Tells whether it served this time.
    pub fn tell(&mut self, served: bool) {
        if served {
            self.next = 1;
        } else {
            self.left = self.next;
            self.next = self.next.saturating_mul(2);
        }
    }
}
