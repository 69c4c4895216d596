// THE TABLE of a query: a bit for each pair of classes of what the first map and the second hold at an instant. What a map holds falls into 11 classes:
// the values 0 to 9, and anything else or nothing. The bit of the classes a and b is bit 11 a + b of 128, the low 64 first.
ghost use Rattle.std.specs.Prelude.{◌≡◌, ◌&&◌, ◌||◌, not as Bool·not, ◌≤◌, ◌<◌};
ghost use Rattle.query_text.specs.InnerClasses.{atom_of, class_truth};
ghost use Rattle.query_text.specs.InnerTable.{is_one, says as Table·says, Shows};

#[derive(Clone, Copy)]
pub struct Truth {
    pub low: u64,
    pub high: u64,
}

// The tables of `A0` to `A9`, and of `B0` to `B9`. The proof computes each bit.
const FIRSTS: [Truth; 10] = [
    Truth {
        low: 0x7ff,
        high: 0x0,
    },
    Truth {
        low: 0x3ff800,
        high: 0x0,
    },
    Truth {
        low: 0x1ffc00000,
        high: 0x0,
    },
    Truth {
        low: 0xffe00000000,
        high: 0x0,
    },
    Truth {
        low: 0x7ff00000000000,
        high: 0x0,
    },
    Truth {
        low: 0xff80000000000000,
        high: 0x3,
    },
    Truth {
        low: 0x0,
        high: 0x1ffc,
    },
    Truth {
        low: 0x0,
        high: 0xffe000,
    },
    Truth {
        low: 0x0,
        high: 0x7ff000000,
    },
    Truth {
        low: 0x0,
        high: 0x3ff800000000,
    },
];

const SECONDS: [Truth; 10] = [
    Truth {
        low: 0x80100200400801,
        high: 0x400801002004,
    },
    Truth {
        low: 0x100200400801002,
        high: 0x801002004008,
    },
    Truth {
        low: 0x200400801002004,
        high: 0x1002004008010,
    },
    Truth {
        low: 0x400801002004008,
        high: 0x2004008010020,
    },
    Truth {
        low: 0x801002004008010,
        high: 0x4008010020040,
    },
    Truth {
        low: 0x1002004008010020,
        high: 0x8010020040080,
    },
    Truth {
        low: 0x2004008010020040,
        high: 0x10020040080100,
    },
    Truth {
        low: 0x4008010020040080,
        high: 0x20040080100200,
    },
    Truth {
        low: 0x8010020040080100,
        high: 0x40080100200400,
    },
    Truth {
        low: 0x20040080100200,
        high: 0x80100200400801,
    },
];

impl Truth {
    // A map holds a digit: the second, or else the first.
    pub fn atom(second: bool, digit: usize) -> Self
        requires { digit < 10 }
        ensures { Shows result (class_truth (atom_of second digit)) }
    {
        if second {
            SECONDS[digit]
        } else {
            FIRSTS[digit]
        }
    }

    // Where a query is false.
    pub fn not(self) -> Self
        ensures { Shows result (λ a b. Bool·not (Table·says self a b)) }
    {
        Truth {
            low: !self.low,
            high: !self.high,
        }
    }

    // Where two queries are both true.
    pub fn and(self, other: Truth) -> Self
        ensures { Shows result (λ a b. Table·says self a b && Table·says other a b) }
    {
        Truth {
            low: self.low & other.low,
            high: self.high & other.high,
        }
    }

    // Where one of two queries is true.
    pub fn or(self, other: Truth) -> Self
        ensures { Shows result (λ a b. Table·says self a b || Table·says other a b) }
    {
        Truth {
            low: self.low | other.low,
            high: self.high | other.high,
        }
    }

    // The bit of two classes.
    pub fn says(self, a: usize, b: usize) -> bool
        requires { (a ≤ 10) × (b ≤ 10) }
        ensures { result ≡ Table·says self a b }
    {
        let i = 11 * a + b;
        if i < 64 {
            bit(self.low, i)
        } else {
            bit(self.high, i - 64)
        }
    }
}

// Whether bit `i` of a word is 1.
fn bit(word: u64, i: usize) -> bool
    requires { i < 64 }
    ensures { result ≡ is_one word i }
{
    (word >> i) & 1 == 1
}
