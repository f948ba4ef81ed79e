// Numbers that are answered one after another.
ghost use Rattle.std.specs.Prelude.{◌≡◌};
ghost use Rattle.outside_mem.specs.Listing.{listed};
ghost use Rattle.vm_host.specs.Giving.{IsDrawn};

use std::marker::Model;

/// Numbers of a list in order, and then its last one again and again; without any, 0. Contracts see those that are left.
#[derive(Drop)]
pub struct Numbers {
    list: Vec<u64>,
    at: usize,
}

impl Model for Numbers {
    ghost use Rattle.std.specs.Prelude.{List, ℕ, drop};

    ghost Value = { List ℕ };

    ghost view = { λ n. drop n.at n.list.items };
}

impl Numbers {
    pub fn new(list: Vec<u64>) -> Numbers
        ensures { result ≡ list.items }
    {
        Numbers { list, at: 0 }
    }

    /// The next number.
    pub fn next(&mut self) -> u64
        ensures { IsDrawn (listed self.old) result (listed self.new) }
    {
        if self.at >= self.list.len() {
            return 0;
        }
        let number = self.list[self.at];
        if self.at + 1 < self.list.len() {
            self.at += 1;
        }
        number
    }
}
