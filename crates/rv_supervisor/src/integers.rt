// The integer registers of a hart.
ghost use Rattle.std.specs.Prelude.{◌≡◌, ◌≤◌, ◌<◌, ◌-◌, length, replicate, slice_set};
ghost use Rattle.rv_supervisor.specs.Integers.{integer, with_integer};

use std::marker::Model;

/// x0 to x31 in one array, so that each is read alike: x0 is 0. Contracts see x1 to x31 in order.
#[derive(Clone, Copy, Drop)]
pub struct Integers {
    each: [u64; 32],
}

impl Model for Integers {
    ghost use Rattle.std.specs.Prelude.{◌≡◌, ◌∷◌, ℕ, List, drop};
    ghost use Rattle.rv_supervisor.specs.Wholes.{whole};

    ghost Value = { List ℕ };

    ghost view = { λ s. drop 1 s.each };

    ghost invariant = { λ s. s.each ≡ 0 ∷ drop 1 s.each };

    ghost inverse = { λ xs. record { each = 0 ∷ xs } };

    ghost inverse_ok = { λ a h. whole a h };
}

impl Integers {
    /// Every register is 0.
    pub fn zeros() -> Integers
        ensures { result ≡ replicate 31 0 }
    {
        Integers { each: [0; 32] }
    }

    /// With these values of x1 to x31.
    pub fn from_values(values: [u64; 31]) -> Integers
        ensures { result ≡ values }
    {
        let mut each = [0; 32];
        each[1..].copy_from_slice(&values);
        Integers { each }
    }

    /// The values of x1 to x31.
    pub fn values(&self) -> [u64; 31]
        ensures { result ≡ self.now }
    {
        let mut values = [0; 31];
        values.copy_from_slice(&self.each[1..]);
        values
    }

    /// The value of the register of this number. x0 reads 0.
    #[inline(always)]
    pub fn get(&self, number: usize) -> u64
        requires { number < 32 }
        ensures { result ≡ integer self.now number }
    {
        self.each[number]
    }

    /// Puts a value into the register of this number, which isn't x0.
    #[inline(always)]
    pub fn set(&mut self, number: usize, value: u64)
        requires from { 1 ≤ number }
        requires below { number < 32 }
        ensures { self.new ≡ slice_set self.old (number - 1) value }
    {
        self.each[number] = value;
    }

    /// Puts a value into the register of this number. What is written to x0 is dropped, with no branch.
    #[inline(always)]
    pub fn put(&mut self, number: usize, value: u64)
        requires { number < 32 }
        ensures { self.new ≡ with_integer self.old number value }
    {
        self.each[number] = value;
        self.each[0] = 0;
    }
}
