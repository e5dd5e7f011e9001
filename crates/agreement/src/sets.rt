// Sets of units, as reference/README.md has the grammar of their files. What a file lacks reads as 0 and as an empty list here: the reference
// program reads the same files, and refuses it.
ghost use Rattle.std.specs.Iterator.{at_most};

// Units in their rows, what they run on, and how they are to be linked: in each of the orders, and in the first of them with an unrelated unit
// at a place. `units` and `orders` begin where the first of them stands, and go on to the end of the file: a set claims no memory, however many
// units and orders its file says.
#[derive(Clone, Copy, PartialEq, Eq, Debug)]
pub struct Set<'a> {
    count: u32,
    units: Words<'a>,
    pub tape: &'a [u32],
    pub room: u32,
    pub calls: u32,
    pub order_count: u32,
    orders: Words<'a>,
    pub extra: &'a [u32],
    pub place: u32,
}

impl<'a> Set<'a> {
    // The row of a unit, counted from 0.
    pub fn unit(&self, number: u32) -> &'a [u32] {
        let mut words = self.units;
        words.skip_lists(number);
        words.list()
    }

    // An order, counted from 0: the units' numbers.
    pub fn order(&self, number: u32) -> &'a [u32] {
        let mut words = self.orders;
        words.skip_orders(number, self.count);
        words.take(self.count)
    }
}

// The sets of a file that are not read yet.
#[derive(Clone, Copy, PartialEq, Eq, Debug)]
pub struct Sets<'a> {
    left: u32,
    words: Words<'a>,
}

impl<'a> Sets<'a> {
    pub fn new(file: &'a [u32]) -> Sets<'a> {
        let mut words = Words(file);
        Sets {
            left: words.number(),
            words,
        }
    }
}

impl<'a> Iterator for Sets<'a> {
    type Item = Set<'a>;

    ghost remaining = { λ s. at_most s.left };

    fn next(&mut self) -> Option<Set<'a>> {
        self.left = self.left.checked_sub(1)?;
        Some(self.words.set())
    }
}

// What is left of a file's words.
#[derive(Clone, Copy, PartialEq, Eq, Debug)]
struct Words<'a>(&'a [u32]);

impl<'a> Words<'a> {
    fn number(&mut self) -> u32 {
        self.0.split_off_first().copied().unwrap_or(0)
    }

    // So many words.
    fn take(&mut self, n: u32) -> &'a [u32] {
        let (taken, rest) = self.0.split_at(self.0.len().min(n as usize));
        self.0 = rest;
        taken
    }

    // A length and so many words.
    fn list(&mut self) -> &'a [u32] {
        let n = self.number();
        self.take(n)
    }

    fn skip_lists(&mut self, count: u32) {
        for _ in 0..count {
            let _ = self.list();
        }
    }

    // Skips so many orders of n units.
    fn skip_orders(&mut self, count: u32, n: u32) {
        for _ in 0..count {
            let _ = self.take(n);
        }
    }

    fn set(&mut self) -> Set<'a> {
        let count = self.number();
        let units = *self;
        self.skip_lists(count);
        let tape = self.list();
        let room = self.number();
        let calls = self.number();
        let order_count = self.number();
        let orders = *self;
        self.skip_orders(order_count, count);
        Set {
            count,
            units,
            tape,
            room,
            calls,
            order_count,
            orders,
            extra: self.list(),
            place: self.number(),
        }
    }
}
