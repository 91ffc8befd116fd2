//! Lists of numbers.

ghost use Rattle.std.specs.Prelude.{◌≡◌};

use std::marker::Model;

/// A list of numbers of 32 bits, seen by contracts as that list.
#[derive(Debug, Drop)]
pub struct Numbers {
    list: Vec<u32>,
}

impl Model for Numbers {
    ghost use Rattle.std.specs.Prelude.{ℕ, List};

    ghost Value = { List ℕ };

    ghost view = { λ numbers. numbers.list.items };
}

impl Numbers {
    /// The elements of the vector, in their order.
    pub fn of(list: Vec<u32>) -> Numbers
        ensures { result ≡ list.items }
    {
        Numbers { list }
    }

    /// Its elements.
    pub fn as_slice(&self) -> &[u32]
        ensures { result.now ≡ self.now }
    {
        self.list.as_slice()
    }

    /// Its elements as a vector. Takes no memory.
    pub fn into_vec(self) -> Vec<u32>
        ensures { result.items ≡ self }
    {
        self.list
    }
}

/// As `of`.
impl From<Vec<u32>> for Numbers {
    ghost from_gives = { λ list numbers. numbers ≡ list.items };

    fn from(list: Vec<u32>) -> Numbers {
        Numbers::of(list)
    }
}

/// As `into_vec`.
impl From<Numbers> for Vec<u32> {
    ghost from_gives = { λ numbers list. list.items ≡ numbers };

    fn from(numbers: Numbers) -> Vec<u32> {
        numbers.into_vec()
    }
}
