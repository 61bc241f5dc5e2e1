// The counters of a round as plain numbers: what is left at each manager, and the letters from each
// manager to each other.
#[derive(Drop)]
struct Plain {
    left: [u64; 16],
    posted: [[u64; 16]; 16],
}

impl Plain {
    // An actor of one manager sends so many letters to actors of another, and is reported.
    fn act(&mut self, m: usize, to: usize, letters: u64) {
        if m < 16 && to < 16 {
            self.left[m] = self.left[m].wrapping_add(letters).wrapping_sub(1);
            self.posted[m][to] = self.posted[m][to].wrapping_add(letters);
        }
    }

    // The letters to all managers are taken in.
    fn collect(&mut self) {
        for m in 0..16 {
            for to in 0..16 {
                self.left[m] = self.left[m].wrapping_sub(self.posted[m][to]);
            }
        }
    }
}

/// A whole moment by one loop over arrays: whether nothing is left.
pub(crate) fn is_over(scheduled: &[u32], letters: u64) -> bool {
    let mut plain = Plain {
        left: [0; 16],
        posted: [[0; 16]; 16],
    };
    let managers = scheduled.len().min(16);
    for m in 0..managers {
        plain.left[m] = scheduled[m] as u64;
        for _ in 0..scheduled[m] {
            plain.act(m, managers - 1 - m, letters);
        }
    }
    plain.collect();
    plain.left == [0; 16]
}
