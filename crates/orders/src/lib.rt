// Orders and dependencies by value. Every function takes any value: a `len` above 4 reads as 4.
#![tactic(auto)]

ghost use Rattle.std.specs.Prelude.{◌≡◌, ◌≤◌, length, take, get_or};
ghost use Rattle.theory.specs.Orders as theory;
ghost use Rattle.orders.specs.Orders.{order_of, OrderIs};

use numbers::limits;

// An order, most significant entry first: `len` entries, each a column with a direction, and behind them some that say nothing. It takes no memory from a heap
// and is copied.
#[derive(Clone, Copy)]
pub struct Order {
    pub entries: [u8; 4],
    pub len: usize,
}

// A functional dependency: `count` left columns, which come first, settle the one behind them; or two columns agree in every row.
#[derive(Clone, Copy)]
pub enum Rule {
    Fix {
        count: u8,
        a: u8,
        b: u8,
        c: u8,
        d: u8,
    },
    Equal {
        a: u8,
        b: u8,
    },
}

// A rule that belongs to a numbered set.
#[derive(Clone, Copy)]
pub struct Dependency {
    pub set: u8,
    pub rule: Rule,
}

// Whether an entry descends.
pub fn descends(e: u8) -> bool
    ensures { result ≡ theory.descends e }
{
    limits::DESCENDING_UNIT <= e
}

// An entry's column.
pub fn column_of(e: u8) -> u8
    ensures { result ≡ theory.column e }
{
    if descends(e) {
        e - limits::DESCENDING_UNIT
    } else {
        e
    }
}

impl Order {
    // The entries, as many as there are.
    pub fn entries(&self) -> &[u8]
        ensures { result.now ≡ order_of self.now }
    {
        &self.entries[..self.length()]
    }

    // The number of entries.
    pub fn length(self) -> usize
        ensures { (result ≡ length (order_of self)) × (result ≤ 4) }
    {
        self.len.min(4)
    }

    // Entry i; 0 past the end.
    pub fn entry(self, i: usize) -> u8
        ensures { result ≡ get_or (order_of self) i 0 }
    {
        let entries = self.entries;
        if i < self.length() { entries[i] } else { 0 }
    }

    // The column of entry i; 0 past the end.
    pub fn column(self, i: usize) -> u8
        ensures { result ≡ theory.column (get_or (order_of self) i 0) }
    {
        column_of(self.entry(i))
    }

    // The columns of an order's entries.
    pub fn columns(self) -> Order
        ensures { OrderIs result (theory.columns (order_of self)) }
    {
        Order {
            entries: [
                self.column(0),
                self.column(1),
                self.column(2),
                self.column(3),
            ],
            len: self.length(),
        }
    }

    // The first n entries.
    pub fn front(self, n: usize) -> Order
        ensures { OrderIs result (take n (order_of self)) }
    {
        let entries = self.entries;
        let len = n.min(self.length());
        Order { entries, len }
    }
}
