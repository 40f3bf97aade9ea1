// The numbers of a line.
// Up to 80 numbers; `last` is the index of the last one, and 80 where there are more.
#[derive(Clone, Copy)]
pub(crate) struct Numbers {
    pub(crate) last: usize,
    pub(crate) values: [u8; 80],
}

impl Numbers {
    // One more byte: a digit goes to the last number, modulo 256; any other byte begins the next.
    fn add(&mut self, byte: u8) {
        if self.last < 80 {
            if byte.is_ascii_digit() {
                let n = self.values[self.last];
                self.values[self.last] = n.wrapping_mul(10).wrapping_add(byte - b'0');
            } else {
                self.last += 1;
            }
        }
    }
}

pub(crate) fn read(s: &[u8]) -> Numbers {
    let mut n = Numbers {
        last: 0,
        values: [0; 80],
    };
    for &byte in s {
        n.add(byte);
    }
    n
}
